use crate::arguments::{asked_form, asked_limits, asked_rate};
use crate::csv::csv_text;
use crate::table::table_text;
use crate::{BitRate, GuardTime, Row};
use bch::Mode;
use clap::ArgMatches;
use cltu::CodeblockLimit;
use command_line::Failure;
use receiver_options::asked_mode;
use std::alloc::{AllocError, Global};

/// The form of a text that tells guard times.
#[derive(Clone, Copy, Debug, PartialEq, Eq)]
pub enum Form {
    /// A table to be read, with what it tells below it.
    Table,
    /// Values parted by commas, for a spreadsheet.
    Csv,
}

/// Which guard times are asked for, and in what form.
#[derive(Debug, Drop)]
pub struct Asked {
    /// The limits, in the order of the rows.
    pub limits: Vec<CodeblockLimit>,
    /// The mode, or `None` for both.
    pub mode: Option<Mode>,
    /// The rate at which milliseconds are told, if any are.
    pub rate: Option<BitRate>,
    /// The form of the text.
    pub form: Form,
}

impl Asked {
    ghost use Rattle.std.specs.Prelude.{◌≡◌, Some, IfOk, IfErr, OnOk, string_bytes};
    ghost use Rattle.command_line.specs.Status.{failure_status};
    ghost use Rattle.guard_times.specs.Arguments.{Asks};
    ghost use Rattle.guard_times.specs.declared.asked.Asked.{Asked as TheAsked};
    ghost use Rattle.guard_times.specs.Answers.{Answers, OneText};
    ghost use Rattle.guard_times.specs.Rows.{AreRowsOf, AddsRows, guards_of_limit, guards_asked};

    /// What the arguments ask for. They are wrong where an option has a value that it does not take.
    pub fn by(heap: Global, matches: &ArgMatches<'_>) -> Result<Asked, Failure>
        ensures asked { IfOk result (Asks matches.now) }
        ensures refused { IfErr result (λ failure. failure_status failure ≡ 2
            → (asked : TheAsked) → Asks matches.now asked → ⊥) }
    {
        Ok(Asked {
            limits: asked_limits(heap, matches)?,
            mode: asked_mode(heap, matches)?,
            rate: asked_rate(heap, matches)?,
            form: asked_form(matches),
        })
    }

    /// The rows: the limits in the order asked for, each in correcting mode before detecting.
    pub fn rows(&self, heap: Global) -> Result<Vec<Row>, AllocError>
        ensures { IfOk result (λ rows. AreRowsOf (guards_asked self.now.mode self.now.limits.items) self.now.rate rows.items) }
    {
        let mut rows = Vec::new(heap);
        for limit in &self.limits {
            self.push_rows(*limit, &mut rows)?;
        }
        Ok(rows)
    }

    /// All that is told of them.
    pub fn text(&self, heap: Global) -> Result<String, AllocError>
        ensures text { IfOk result (λ s. Answers self.now (string_bytes s)) }
        ensures one { OneText }
    {
        let rows = self.rows(heap)?;
        match self.form {
            Form::Table => table_text(heap, rows.as_slice(), self.rate),
            Form::Csv => csv_text(heap, rows.as_slice()),
        }
    }

    // The rows of a limit.
    fn push_rows(&self, limit: CodeblockLimit, rows: &mut Vec<Row>) -> Result<(), AllocError>
        ensures { OnOk result (AddsRows (guards_of_limit self.now.mode limit) self.now.rate
            rows.old.items rows.new.items) }
    {
        match self.mode {
            Some(mode) => self.push_row(mode, limit, rows)?,
            None => {
                self.push_row(Mode::Correcting, limit, rows)?;
                self.push_row(Mode::Detecting, limit, rows)?;
            }
        }
        Ok(())
    }

    fn push_row(
        &self,
        mode: Mode,
        limit: CodeblockLimit,
        rows: &mut Vec<Row>,
    ) -> Result<(), AllocError>
        ensures { OnOk result (AddsRows (guards_of_limit (Some mode) limit) self.now.rate
            rows.old.items rows.new.items) }
    {
        rows.push(Row::new(GuardTime { mode, limit }, self.rate))?;
        Ok(())
    }
}
