//! Laws of the definitions. Each is the contract of a function that does nothing.
ghost use Rattle.chain_spec.specs.ChangeLaws.{LedgerGrows, ConnectedIsSound, StartedIsSound, HeightIsBlocks, UndoneIsSound, ChangesGrow, ChangesTell, PairsStand};
ghost use Rattle.chain_spec.specs.ChainLaws.{RecordsAreApart, UntouchedStand, PartSufficesForIds, PartSufficesForPairs};

/// No two records of a sound chain have one id.
pub fn records_are_apart()
    ensures { RecordsAreApart }
{}

/// A record stands that no block touched.
pub fn untouched_stand()
    ensures { UntouchedStand }
{}

/// A part of a ledger has what was asked for.
pub fn part_suffices()
    ensures ids { PartSufficesForIds }
    ensures pairs { PartSufficesForPairs }
{}

/// A sound chain stays sound with a block that can be connected, without its last ones, and with a start coin more. Its
/// height is the number of its blocks.
pub fn chains_stay_sound()
    ensures ledger { LedgerGrows }
    ensures connected { ConnectedIsSound }
    ensures undone { UndoneIsSound }
    ensures started { StartedIsSound }
    ensures height { HeightIsBlocks }
{}

/// The change list grows, and tells each record that isn't as before.
pub fn changes_tell()
    ensures grow { ChangesGrow }
    ensures tell { ChangesTell }
{}

/// There is the same of unspent coins of a puzzle hash and an amount where what changed is none of these.
pub fn pairs_stand()
    ensures { PairsStand }
{}
