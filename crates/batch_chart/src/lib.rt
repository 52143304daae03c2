// One chart of a batch, swept as it would be alone, and its result in numbers.
#![tactic(auto)]

ghost use Rattle.std.specs.Prelude.{◌≡◌, length};
ghost use Rattle.batch_result.specs.Numbers.{numbers_of};
ghost use Rattle.batch_result.specs.Single.{swept_alone, left_alone};

// The single call, with the largest budget.
pub fn sweep_chart(list: &[i32], pairs: &mut [u8], res: &mut [u64])
    requires { length res.old ≡ 10 }
    ensures { (pairs.new ≡ left_alone list.now pairs.old) × (res.new ≡ numbers_of (swept_alone list.now pairs.old)) }
{
    let swept = full_sweep::sweep(list, 4294967295, pairs);
    batch_result::put_result(swept, res);
}
