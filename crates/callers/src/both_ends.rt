ghost use Rattle.std.specs.Prelude.{◌≡◌, ◌≤◌, [], ◌∷◌, ◌++◌, length, take, IfOk, OnOk, OnErr};
ghost use Rattle.bch.specs.Bits.{octet_bits, bits_of};
ghost use Rattle.procedures.specs.Reception.{SessionPromise};
ghost use Rattle.cltu.specs.Cltu.{filled};
ghost use Rattle.session.specs.Writing.{parameters_of};
ghost use Rattle.reception.specs.Calls.{symbol_events, refused_if_up, answered};
ghost use Rattle.receiver.specs.Meaning.{held_by, state_of};
ghost use Rattle.receiver.specs.Events.{Ran};
ghost use Rattle.receiver.specs.Joined.{PromiseOverCalls};
ghost use Rattle.callers.specs.InUse.{InUse, BackInSearch};
ghost use Rattle.callers.specs.BothEnds.{raised_for, and_then, frame_answer, two_answer, memory_after_two, counted, SentInFront, SentBehind, IsStretchInFront, FitsTheSender};

use hold::Hold;
use procedures::{IdleOctet, Plop};
use queue::Queue;
use randomizer::Randomizer;
use receiver::Receiver;
use reception::Report;
use refusals::Refusal;
use session::{AfterSending, FrameSpan, Locked, Silent};

/// How a sending session is made: by PLOP-2, with these.
#[derive(Clone, Copy)]
pub struct SenderSettings {
    /// How many codeblocks its CLTUs have at most.
    pub limit: usize,
    /// Whether frames are randomized.
    pub randomizer: Randomizer,
    /// The octet that acquisition and idle repeat.
    pub idle: IdleOctet,
}

/// Sends two frames from one end to the other: a session writes an acquisition of so many octets and the CLTUs of
/// both frames into the memory, and the receiver, whose carrier goes up for it, hears the bits of these octets. Answers
/// how many octets these are.
/// That both frames come, in order, is proved where nothing is refused, the receiver came by calls from its making and
/// has a limit no lower than the session's, and its hold matches the session's randomizer and has free space for both.
/// Refused as the session's calls are, in their order, and with 5 where the receiver is not INACTIVE; then the
/// receiver and the queue are as they were. What was written before a refusal stands in front of the memory: nothing,
/// the acquisition, it and the first CLTU with the idle octet behind, or all of it. The rest of the memory is as it
/// was, refused or not.
pub fn send_two<H: Hold>(
    settings: SenderSettings,
    acquisition: usize,
    first: &[u8],
    second: &[u8],
    memory: &mut [u8],
    receiver: &mut Receiver<H>,
    reports: &mut Queue<'_, Report>,
) -> Result<usize, Refusal>
    ensures answer { result ≡ and_then (two_answer settings acquisition first.now second.now memory.old)
        (answered (refused_if_up (state_of H.Hold receiver.old).phase)) }
    ensures memory { memory.new ≡ memory_after_two settings acquisition first.now second.now memory.old }
    ensures written { IfOk result (λ octets.
        IsStretchInFront settings acquisition first.now second.now memory.new octets) }
    ensures heard { IfOk result (λ octets.
        Ran H.Hold (raised_for (take octets memory.new)) receiver.old receiver.new reports.old reports.new) }
    ensures received { OnOk result (InUse H.Hold receiver.old →
        FitsTheSender H.Hold receiver.old settings first.now second.now →
        ((held_by H.Hold receiver.new).finished
        ≡ (held_by H.Hold receiver.old).finished ++ filled first.now ∷ filled second.now ∷ [])
        × BackInSearch H.Hold receiver.new) }
    ensures in_use { InUse H.Hold receiver.old → InUse H.Hold receiver.new }
    ensures refused { OnErr result ((receiver.new ≡ receiver.old) × (reports.new ≡ reports.old)) }
{
    let octets = write_two(settings, acquisition, first, second, memory)?;
    receiver.carrier_up()?;
    hear(receiver, &memory[..octets], reports);
    Ok(octets)
}

// Writes an acquisition and the CLTUs of two frames, one behind the other.
fn write_two(
    settings: SenderSettings,
    acquisition: usize,
    first: &[u8],
    second: &[u8],
    memory: &mut [u8],
) -> Result<usize, Refusal>
    ensures answer { result ≡ two_answer settings acquisition first.now second.now memory.old }
    ensures memory { memory.new ≡ memory_after_two settings acquisition first.now second.now memory.old }
    ensures written { IfOk result (λ octets.
        IsStretchInFront settings acquisition first.now second.now memory.new octets) }
    ensures promise { IfOk result (λ _. SessionPromise) }
{
    let session = Silent::new(
        Plop::Two,
        settings.limit,
        settings.randomizer,
        settings.idle,
    )?;
    let (session, acquired) = match session.raise().acquire(acquisition, memory) {
        Ok(done) => done,
        Err((_, refusal)) => return Err(refusal),
    };
    let (session, sent) = send_behind(session, first, acquired, memory)?;
    let (_, sent) = send_behind(session, second, sent, memory)?;
    Ok(sent)
}

// Writes the CLTU of a frame behind so many octets of the memory, and answers how many these are together.
fn send_behind(
    session: Locked,
    frame: &[u8],
    written: usize,
    memory: &mut [u8],
) -> Result<(Locked, usize), Refusal>
    requires plop { session.settings.plop ≡ Plop.Two }
    requires within { written ≤ length memory.old }
    ensures answer { counted result
        ≡ frame_answer session.settings.sender.limit.count (parameters_of session.settings)
        (length memory.old) frame.now written }
    ensures behind { IfOk result (λ done. SentBehind session frame.now written memory.old memory.new done.0 done.1) }
    ensures refused { OnErr result (memory.new ≡ memory.old) }
{
    let (session, sent) = send_frame(session, frame, &mut memory[written..])?;
    Ok((session, written + sent))
}

// Writes the CLTU of a frame in PLOP-2, where another may follow.
fn send_frame(session: Locked, frame: &[u8], memory: &mut [u8]) -> Result<(Locked, usize), Refusal>
    requires { session.settings.plop ≡ Plop.Two }
    ensures answer { counted result
        ≡ frame_answer session.settings.sender.limit.count (parameters_of session.settings)
        (length memory.old) frame.now 0 }
    ensures front { IfOk result (λ done. SentInFront session frame.now memory.old memory.new done.0 done.1) }
    ensures refused { OnErr result (memory.new ≡ memory.old) }
{
    let whole = FrameSpan {
        place: 0,
        length: frame.len(),
    };
    match session.send(frame, whole, memory) {
        Ok((AfterSending::Locked(session), octets)) => Ok((session, octets)),
        Ok((AfterSending::Sent(_), _)) => unreachable!(),
        Err((_, refusal)) => Err(refusal),
    }
}

// Hears octets, bit by bit.
fn hear<H: Hold>(receiver: &mut Receiver<H>, octets: &[u8], reports: &mut Queue<'_, Report>)
    ensures in_use { InUse H.Hold receiver.old → InUse H.Hold receiver.new }
    ensures ran { PromiseOverCalls H.Hold →
        Ran H.Hold (symbol_events (bits_of octets.now)) receiver.old receiver.new reports.old reports.new }
{
    for octet in octets {
        // Not refused: the carrier is up.
        let _ = receiver.symbols(&bits(*octet), reports);
    }
}

// The bits of an octet, in the order in which they are sent.
fn bits(octet: u8) -> [bool; 8]
    ensures { result ≡ octet_bits octet }
{
    [
        octet >> 7 & 1 == 1,
        octet >> 6 & 1 == 1,
        octet >> 5 & 1 == 1,
        octet >> 4 & 1 == 1,
        octet >> 3 & 1 == 1,
        octet >> 2 & 1 == 1,
        octet >> 1 & 1 == 1,
        octet & 1 == 1,
    ]
}
