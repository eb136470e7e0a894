// One list lent as a slice of structs, judged before any join, and what is found as C has it.

#![tactic(auto)]

ghost use Rattle.std.specs.Prelude.{◌≡◌};
ghost use Rattle.std.specs.declared.option.Option.TheVariants.{None};
ghost use Rattle.rules.specs.Answer.{judge_list};
ghost use Rattle.form.specs.declared.Range.{Range};
ghost use Rattle.tariffs.specs.Placed.{placed};
ghost use Rattle.tariffs.specs.Told.{Told};

use form::{Range, judge_range};
use rules::{Refusal, code, number as number_of};

// What has a range, as a tariff of a list that is typed: the range has its points by their keys.
pub trait Ranged: Copy {
    ghost range: { Self → Range };

    fn range(self) -> Range
        ensures { result ≡ range self };
}

// The first faulty range of the list, or that there is none.
pub fn judge_tariffs<T: Ranged>(list: &[T]) -> Result<(), Refusal>
    ensures { result ≡ judge_list None (placed T.range 0 list.now) }
{
    let mut prior = None;
    for (i, tariff) in list.iter().enumerate() {
        let range = tariff.range();
        judge_range(prior, range, i)?;
        prior = Some(range.end);
    }
    Ok(())
}

// What is found as a C function tells it: the code comes back, 0 where nothing is at fault, and the number is written.
pub fn tell(found: Result<(), Refusal>, number: &mut u64) -> u8
    ensures { Told found result number.new }
{
    let answer = found.map(|_| 0);
    *number = number_of(answer) as u64;
    code(answer)
}
