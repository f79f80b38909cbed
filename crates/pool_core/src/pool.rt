ghost use Rattle.std.specs.Prelude.{◌≡◌, ◌<◌, ◌^◌, [], ◌∷◌, ◌++◌, true, length, IfOk, IfErr, OnOk, OnErr};
ghost use Rattle.pool_spec.specs.Payment.{is_payment};
ghost use Rattle.pool_spec.specs.FirstAdmission.{first_admission, after_admission};
ghost use Rattle.pool_spec.specs.FirstAdmission as answer;
ghost use Rattle.pool_core.specs.JudgedItems.{IsJudged, AreJudged, bundles_of};
ghost use Rattle.pool_core.specs.SpendPayments.{ArePayments};
ghost use Rattle.pool_core.specs.PaymentSums.{pays_out};
ghost use Rattle.pool_core.specs.Admissions.{IsRefusedBy};

use crate::fault::AdmitFault;
use crate::ids::{are_new, created_ids, first_repeat};
use crate::item::Item;
use crate::judge::{Fine, judge_payment};
use crate::payment::{Payment, payments};
use crate::sums::{created_amount, spent_amount};
use block_form::{Bundle, Spend, bundle_id};
use coin_facts::{Hash32, Ids, OutOfMemory};
use coin_store::Store;
use judge_spec::Rule;
use pool_spec::Limits;
use std::alloc::Global;
use std::marker::Model;

#[cfg(test)]
mod tests;

/// An admitted bundle: its id, its fee in mojos, its cost, and the ids of the bundles that it replaces.
#[derive(Debug, Drop)]
pub struct Admitted {
    pub id: Hash32,
    pub fee: u128,
    pub cost: u64,
    pub replaced: Ids,
}

/// The pool of one thread: a chain, the limits, and the bundles in the order in which they were admitted. Each is
/// Fine on the chain within the limits.
#[derive(Debug, Drop)]
pub struct Pool {
    store: Store,
    limits: Limits,
    items: Vec<Item>,
}

impl Model for Pool {
    ghost use Rattle.std.specs.Prelude.{◌<◌, ◌^◌, length};
    ghost use Rattle.pool_spec.specs.Pool.{PoolState};
    ghost use Rattle.pool_core.specs.JudgedItems.{AreJudged, bundles_of};

    ghost Value = { PoolState };

    ghost view = { λ p. record { chain = p.store; limits = p.limits; bundles = bundles_of p.items.items } };

    ghost invariant = { λ p. (length p.items.items < 2 ^ 32) × AreJudged p.store p.limits p.items.items };
}

impl Pool {
    /// A pool with no bundle.
    pub fn new(alloc: Global, store: Store, limits: Limits) -> Pool
        ensures { result ≡ record { chain = store; limits = limits; bundles = [] } }
    {
        Pool {
            store,
            limits,
            items: Vec::new(alloc),
        }
    }

    /// The bundles, lent, in the order in which they were admitted.
    pub fn items(&self) -> &[Item]
        ensures bundles { bundles_of result.now ≡ self.now.bundles }
        ensures judged { AreJudged self.now.chain self.now.limits result.now }
        ensures few { length result.now < 2 ^ 32 }
    {
        self.items.as_slice()
    }

    /// The chain's coins, lent.
    pub fn store(&self) -> &Store
        ensures { result.now ≡ self.now.chain }
    {
        &self.store
    }

    /// The limits, lent.
    pub fn limits(&self) -> &Limits
        ensures { result.now ≡ self.now.limits }
    {
        &self.limits
    }

    /// Whether the pool judges a bundle so far: whether it is a payment on the pool's chain.
    pub fn is_payment(&self, alloc: Global, bundle: &Bundle) -> Result<bool, OutOfMemory>
        ensures { IfOk result (λ b. b ≡ is_payment self.now.chain bundle.now) }
    {
        let spends = bundle.spends.as_slice();
        if spends.is_empty() || !bundle.attested.as_slice().is_empty() {
            return Ok(false);
        }
        match payments(alloc, spends)? {
            Some(payments) => pays_out(alloc, &self.store, spends, &payments),
            None => Ok(false),
        }
    }

    /// Admits a bundle, which goes last, or refuses it by the first rule that it breaks. After a refusal, and after
    /// want of memory, the pool stands as before. So far the pool is empty, and the bundle is a payment, which
    /// `is_payment` tests.
    pub fn admit(&mut self, alloc: Global, bundle: Bundle) -> Result<Admitted, AdmitFault>
        requires payment { is_payment self.old.chain bundle ≡ true }
        requires empty { self.old.bundles ≡ [] }
        ensures admitted { IfOk result (λ a. first_admission self.old bundle ≡ answer.Admitted a.id a.fee a.cost a.replaced) }
        ensures after { OnOk result (self.new ≡ after_admission self.old bundle) }
        ensures refused { IfErr result (IsRefusedBy (first_admission self.old bundle)) }
        ensures stays { OnErr result (self.new ≡ self.old) }
    {
        let limits = self.limits;
        let Fine { cost, fee } = judge_payment(alloc, &self.store, &bundle, &limits)?;
        if cost > limits.pool_cost {
            return Err(AdmitFault::Refused {
                rule: Rule::PoolIsFull.number(),
                place: 0,
            });
        }
        let id = bundle_id(alloc, &bundle)?;
        self.enter(Item::new(bundle, fee, cost))?;
        Ok(Admitted {
            id,
            fee,
            cost,
            replaced: Ids::new(alloc),
        })
    }

    // Puts a judged bundle in. Without memory the pool stands as before.
    fn enter(&mut self, item: Item) -> Result<(), OutOfMemory>
        requires judged { IsJudged self.old.chain self.old.limits item }
        requires empty { self.old.bundles ≡ [] }
        ensures ok { OnOk result (self.new ≡ record self.old { bundles = self.old.bundles ++ item.bundle ∷ [] }) }
        ensures err { OnErr result (self.new ≡ self.old) }
    {
        self.items.push(item)?;
        Ok(())
    }
}

// Whether payments make new coins, each once, that are worth at most what is spent.
fn pays_out(
    alloc: Global,
    store: &Store,
    spends: &[Spend],
    payments: &[Payment],
) -> Result<bool, OutOfMemory>
    requires few { length spends.now < 2 ^ 32 }
    requires payments { ArePayments spends.now payments.now }
    ensures { IfOk result (λ b. b ≡ pays_out store.now spends.now payments.now) }
{
    let created = created_ids(alloc, payments)?;
    let once = first_repeat(alloc, &created)?.is_none();
    let covered = created_amount(payments) <= spent_amount(spends);
    Ok(once && covered && are_new(store, &created))
}
