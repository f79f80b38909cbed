/// How a bundle's spend goes with others: as it is, together with an identical one, or moved onto the newest coin of its
/// singleton. This project's own.
#[derive(Clone, Copy, Debug, PartialEq, Eq)]
pub enum Class {
    Plain,
    Same,
    Forward,
}
