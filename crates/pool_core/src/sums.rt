//! What spends spend and payments make.
ghost use Rattle.std.specs.Prelude.{◌≡◌, ◌<◌, ◌^◌, length};
ghost use Rattle.std.specs.List.{sum_by, flat_map};
ghost use Rattle.pool_spec.specs.FirstJudgement.{spent_amounts};
ghost use Rattle.pool_core.specs.PaymentSums.{paid_amounts};

use crate::payment::Payment;
use block_form::Spend;
use coin_facts::Coin;

// What the spent coins are worth together.
pub(crate) fn spent_amount(spends: &[Spend]) -> u128
    requires { length spends.now < 2 ^ 32 }
    ensures value { result ≡ spent_amounts spends.now }
    ensures small { result < 2 ^ 96 }
{
    let mut amount = 0;
    for spend in spends {
        amount += u128::from(spend.coin.amount);
    }
    amount
}

fn coins_amount(coins: &[Coin]) -> u128
    requires { length coins.now < 2 ^ 32 }
    ensures value { result ≡ sum_by (λ coin. coin.amount) coins.now }
    ensures small { result < 2 ^ 96 }
{
    let mut amount = 0;
    for coin in coins {
        amount += u128::from(coin.amount);
    }
    amount
}

// What the coins that payments make are worth together.
pub(crate) fn created_amount(payments: &[Payment]) -> u128
    requires { length payments.now < 2 ^ 32 }
    ensures { result ≡ paid_amounts payments.now }
{
    let mut amount = 0;
    for payment in payments {
        amount += coins_amount(payment.created.as_slice());
    }
    amount
}
