//! A form that is built of a text.

ghost use Rattle.std.specs.Prelude.{◌≡◌, Option};

/// A form that is built of a text, with places of this kind.
pub trait TextForm<P>: Drop {
    ghost unknown: { Self → Option P };

    /// Where in the form the first symbol stands that its language doesn't know, if one does.
    fn unknown(&self) -> Option<P>
        ensures { result ≡ unknown self.now };
}
