ghost use Rattle.std.specs.Prelude.{◌≡◌, ◌++◌, length, Some, IfOk, OnOk, OnErr, string_bytes};
ghost use Rattle.queue.specs.Waiting.{waiting, capacity};
ghost use Rattle.decoding.specs.Meaning.{rules_of};
ghost use Rattle.receiver.specs.Meaning.{settings_of, held_by, state_of, lost_of, free_slots};
ghost use Rattle.receiver.specs.Calls.{named};
ghost use Rattle.reception.specs.Decoding.{room, added};
ghost use Rattle.drive_lines.specs.Asked.{asked};
ghost use Rattle.drive_lines.specs.Answers.{answer_text, oldest_text, state_text};
ghost use Rattle.drive_lines.specs.Driven.{driven_of, call_for, answer_to, reports_text};
ghost use Rattle.drive_lines.specs.Calling.{Comes, StaysIfRefused};

use crate::{Answer, Call};
use hold::Hold;
use queue::Queue;
use receiver::Receiver;
use reception::Report;
use std::alloc::{AllocError, Global};

// Makes a call, or answers a question.
pub(crate) fn answer<H: Hold>(
    heap: Global,
    call: &Call,
    receiver: &mut Receiver<H>,
    reports: &mut Queue<'_, Report>,
) -> Result<Answer, AllocError>
    ensures answer { let rules = rules_of (settings_of receiver.old) in
        IfOk result (λ a. answer_text a ≡ answer_to rules H.Hold.showing (free_slots reports.old)
        (driven_of H.Hold receiver.old) (asked call.now)) }
    ensures comes { Comes H.Hold (call_for (free_slots reports.old) (asked call.now))
        receiver.old receiver.new reports.old reports.new }
    ensures refused { StaysIfRefused H.Hold (call_for (free_slots reports.old) (asked call.now))
        receiver.old receiver.new }
    ensures slots { capacity reports.new ≡ capacity reports.old }
{
    match call {
        Call::Up => Ok(Answer::done(receiver.carrier_up())),
        Call::Down => Ok(Answer::done(receiver.carrier_down(reports))),
        Call::Release => Ok(Answer::done(receiver.release())),
        Call::Bits(bits) => Ok(Answer::made(receiver.symbols(bits.as_slice(), reports))),
        Call::Levels(levels) => Ok(Answer::made(receiver.symbols(levels.as_slice(), reports))),
        Call::Oldest => oldest(heap, receiver),
        Call::State => Ok(standing(receiver)),
    }
}

// The oldest finished candidate.
fn oldest<H: Hold>(heap: Global, receiver: &Receiver<H>) -> Result<Answer, AllocError>
    ensures { IfOk result (λ a. answer_text a ≡ oldest_text (held_by H.Hold receiver.now).finished) }
{
    match receiver.oldest_length() {
        Ok(octets) => {
            let mut memory = vec![in heap; 0u8; octets]?;
            let _ = receiver.copy_oldest(memory.as_mut_slice());
            let digits = hex::encode_upper(heap, memory.as_slice())?;
            Ok(Answer::Candidate { octets, digits })
        }
        Err(refusal) => Ok(Answer::Refused(refusal)),
    }
}

// How a receiver and its hold stand.
fn standing<H: Hold>(receiver: &Receiver<H>) -> Answer
    ensures { answer_text result ≡ state_text (named (state_of H.Hold receiver.now).phase) (lost_of receiver.now)
        (room (held_by H.Hold receiver.now)) (added (held_by H.Hold receiver.now))
        (length (held_by H.Hold receiver.now).finished) }
{
    Answer::State {
        state: receiver.state(),
        lost: receiver.lost(),
        free: receiver.free_space(),
        open: receiver.open_codeblocks(),
        finished: receiver.finished_count(),
    }
}

// Writes a line for each report that waits, and answers how many these were: none waits then.
pub(crate) fn print_reports(
    reports: &mut Queue<'_, Report>,
    text: &mut String,
) -> Result<u64, AllocError>
    ensures count { IfOk result (λ n. n ≡ length (waiting reports.old)) }
    ensures text { OnOk result (string_bytes text.new ≡ string_bytes text.old ++ reports_text (waiting reports.old)) }
    ensures none { OnOk result (length (waiting reports.new) ≡ 0) }
    ensures slots { capacity reports.new ≡ capacity reports.old }
{
    let count = reports.len() as u64;
    while let Ok(report) = reports.take() {
        writeln!(text, "{report}")?;
    }
    Ok(count)
}
