//! Names of modules.
ghost use Rattle.std.specs.Prelude.{◌≡◌, option_map};
ghost use Rattle.std.specs.List.{list_all};
ghost use Rattle.session_spec.specs.Values.{is_name_byte, is_name};
ghost use Rattle.session_spec.specs.LineMembers.{behind_at};

use session_spec::limits::MOST_NAME;

fn is_name_byte(byte: u8) -> bool
    ensures { result ≡ is_name_byte byte }
{
    "abcdefghijklmnopqrstuvwxyz0123456789_-"
        .as_bytes()
        .contains(&byte)
}

fn are_name_bytes(bytes: &[u8]) -> bool
    ensures { result ≡ list_all is_name_byte bytes.now }
{
    bytes.iter().all(|byte| is_name_byte(*byte))
}

/// Whether a text is a name: 1 to 64 small letters, digits, `_` or `-`.
pub fn is_name(text: &str) -> bool
    ensures { result ≡ is_name text.now }
{
    let bytes = text.as_bytes();
    1 <= bytes.len() && bytes.len() <= MOST_NAME && are_name_bytes(bytes)
}

/// What stands behind an `@`.
pub(crate) fn behind_at(text: &str) -> Option<&str>
    ensures { option_map (λ name. name.now) result ≡ behind_at text.now }
{
    text.strip_prefix('@')
}
