//! What stands at the front of spelled bytes: the mark of a pair, or an atom.

ghost use Rattle.std.specs.Prelude.{◌≡◌, ◌+◌, ◌*◌, ◌-◌, ◌<◌};
ghost use Rattle.clvm_spec.specs.Reading.{head_at, leaf, atom_behind, long_atom, prefixed};
ghost use Rattle.clvm_tree.specs.Pieces.{beginning_of};

/// The head at the front of bytes and what follows it, or the flaw there.
#[derive(Clone, Copy, Debug)]
pub(crate) enum Piece<'a> {
    Open(&'a [u8]),
    Leaf(&'a [u8], &'a [u8]),
    Cut,
    LongSpelling,
    BadPrefix,
}

// An atom behind its prefix, and what follows. One byte below 80 needs no prefix.
fn atom<'a>(bytes: &'a [u8], rest: &'a [u8]) -> Piece<'a>
    ensures { beginning_of result ≡ leaf bytes.now rest.now }
{
    match bytes {
        [byte] if *byte < 0x80 => Piece::LongSpelling,
        _ => Piece::Leaf(bytes, rest),
    }
}

fn sized(size: usize, bytes: &[u8]) -> Piece<'_>
    ensures { beginning_of result ≡ atom_behind size bytes.now }
{
    if bytes.len() < size {
        return Piece::Cut;
    }
    let (front, rest) = bytes.split_at(size);
    atom(front, rest)
}

fn long(least: usize, size: usize, bytes: &[u8]) -> Piece<'_>
    ensures { beginning_of result ≡ long_atom least size bytes.now }
{
    if size < least {
        return Piece::LongSpelling;
    }
    sized(size, bytes)
}

fn two(least: usize, high: u8, bytes: &[u8]) -> Piece<'_>
    ensures { beginning_of result ≡ prefixed 1 least high bytes.now }
{
    match bytes {
        [b, rest @ ..] => long(least, high as usize * 256 + *b as usize, rest),
        _ => Piece::Cut,
    }
}

fn three(least: usize, high: u8, bytes: &[u8]) -> Piece<'_>
    ensures { beginning_of result ≡ prefixed 2 least high bytes.now }
{
    match bytes {
        [b, c, rest @ ..] => long(
            least,
            (high as usize * 256 + *b as usize) * 256 + *c as usize,
            rest,
        ),
        _ => Piece::Cut,
    }
}

fn four(least: usize, high: u8, bytes: &[u8]) -> Piece<'_>
    ensures { beginning_of result ≡ prefixed 3 least high bytes.now }
{
    match bytes {
        [b, c, d, rest @ ..] => {
            let size = ((high as usize * 256 + *b as usize) * 256 + *c as usize) * 256
                + *d as usize;
            long(least, size, rest)
        }
        _ => Piece::Cut,
    }
}

/// The head at the front.
#[tactic(auto, unfolding(clvm_spec::specs::Reading::head_at))]
pub(crate) fn head(bytes: &[u8]) -> Piece<'_>
    ensures { beginning_of result ≡ head_at bytes.now }
{
    match bytes {
        [b, rest @ ..] => match *b {
            0..=0x7f => Piece::Leaf(&bytes[..1], rest),
            0x80..=0xbf => sized((*b - 0x80) as usize, rest),
            0xc0..=0xdf => two(0x40, *b - 0xc0, rest),
            0xe0..=0xef => three(0x2000, *b - 0xe0, rest),
            0xf0..=0xf7 => four(0x10_0000, *b - 0xf0, rest),
            0xff => Piece::Open(rest),
            _ => Piece::BadPrefix,
        },
        _ => Piece::Cut,
    }
}
