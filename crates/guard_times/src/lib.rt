//! Guard times between commands: how many bits, octets and milliseconds of idle, and the text that tells an operator.
#![tactic(auto)]

mod arguments;
mod asked;
mod bit_rate;
mod csv;
mod guard_time;
mod mode_name;
mod row;
mod table;

pub use arguments::{
    asked_form, asked_limits, asked_rate, csv_option, limits_option, rate_option,
    with_guard_options,
};
pub use asked::{Asked, Form};
pub use bit_rate::BitRate;
pub use guard_time::GuardTime;
pub use row::Row;

#[cfg(test)]
mod tests {
    use super::*;
    use clap::Command;
    use std::test::Fail;

    const CSV: &str = "\
limit,mode,bits,octets,milliseconds
37,detecting,127,16,64
1,detecting,127,16,64
37,detecting,127,16,64
";

    const TABLE: &str = "\
limit  mode        bits  octets
    1  correcting   131      17
    1  detecting    127      16
   10  correcting   707      89
   10  detecting    127      16
   37  correcting  2435     305
   37  detecting    127      16
  147  correcting  9475    1185
  147  detecting    127      16

Guard time";

    fn asked(rt: &HostRuntime, words: &[&str]) -> Result<Asked, Fail> {
        let heap = rt.alloc();
        let command = with_guard_options(heap, Command::new(heap, "guard"))?;
        let matches = command.try_get_matches_from(words)?;
        match Asked::by(heap, &matches) {
            Ok(asked) => Ok(asked),
            Err(_) => Err(Fail::new("the arguments are wrong")),
        }
    }

    #[test]
    fn values_of_one_mode(rt: HostRuntime) -> Result<(), Fail> {
        let asked = asked(
            &rt,
            &[
                "guard",
                "--csv",
                "--mode",
                "detecting",
                "--limit",
                "37,1,37",
                "--rate=2000",
            ],
        )?;
        assert_eq!(rt; asked.text(rt.alloc())?.as_str(), CSV);
        Ok(())
    }

    #[test]
    fn table_by_default(rt: HostRuntime) -> Result<(), Fail> {
        let asked = asked(&rt, &["guard"])?;
        let text = asked.text(rt.alloc())?;
        assert!(rt; text.as_str().starts_with(TABLE));
        Ok(())
    }
}
