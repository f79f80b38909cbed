//! Laws of the definitions. Each is the contract of a function that does nothing.
ghost use Rattle.pool_spec.specs.FirstLaws.{FirstIsWhole};
ghost use Rattle.pool_spec.specs.PoolLaws.{FitLooksAt, PriceStands, PricedIsFine, ReplacedAreOthers, StayingArePriced, AdmittedArePriced};

/// A fit looks at unspent coins of its Forward spends' puzzle hashes and amounts, and at these coins' parents.
pub fn fit_looks_at()
    ensures { FitLooksAt }
{}

/// A price stands where the fit and the verdict on it do.
pub fn price_stands()
    ensures { PriceStands }
{}

/// A priced bundle's fit is Fine.
pub fn priced_is_fine()
    ensures { PricedIsFine }
{}

/// Bundles that are replaced are others of the pool.
pub fn replaced_are_others()
    ensures { ReplacedAreOthers }
{}

/// Every bundle has a price after a change of the peak, and still has one after an admission.
pub fn all_are_priced()
    ensures staying { StayingArePriced }
    ensures admitted { AdmittedArePriced }
{}

/// The first form's admission is the whole one for payments to an empty pool.
pub fn first_is_whole()
    ensures { FirstIsWhole }
{}
