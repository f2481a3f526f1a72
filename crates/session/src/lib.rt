//! The sending session of a ground station. Its states are types, and its calls lead from one to another: what the
//! physical layer operations procedures do not allow does not compile.
#![tactic(auto)]

ghost use Rattle.std.specs.Prelude.{◌≡◌, [], ◌∷◌, length, take, MatchResult, IfOk, OnOk, OnErr};
ghost use Rattle.queue.specs.Waiting.{waiting, slots_of, without_oldest};
ghost use Rattle.procedures.specs.Stretch.{repeated, idles, stretch_octets, frames_in};
ghost use Rattle.procedures.specs.Reception.{SessionPromise, FramesWithin};
ghost use Rattle.cltu.specs.Limit.{limit_answer};
ghost use Rattle.session.specs.Calls.{MadeWith, silent_with, carrier_with, acquired, state_after, sending, only_frame, next_octets, next_answer, next_writings};
ghost use Rattle.session.specs.Machine.{call_raise, call_lower, call_acquire, call_idle, call_send, call_run_next, call_break, silent_session, carrier_session, locked_session, sent_session, session_after, IsStep};
ghost use Rattle.session.specs.Promise.{CallsPromise};
ghost use Rattle.session.specs.Writing.{limit_of, parameters_of, frame_at, Found, NotWhole, idle_answer, job_octets, job_answer, memory_after, GoesOn, writings_of};

use cltu::{CodeblockLimit, Sender};
use procedures::{IdleOctet, Plop};
use queue::Queue;
use randomizer::Randomizer;
use refusals::Refusal;

/// Where a frame stands in the caller's frame memory.
#[derive(Clone, Copy, Debug, PartialEq, Eq)]
pub struct FrameSpan {
    /// The place of its first octet.
    pub place: usize,
    /// How many octets it has.
    pub length: usize,
}

impl FrameSpan {
    // The frame itself. Refused with 1 where it is not wholly in the memory.
    fn within(self, frames: &[u8]) -> Result<&[u8], Refusal>
        ensures { MatchResult result (λ frame. Found frames.now self frame.now) (NotWhole frames.now self) }
    {
        let end = self
            .place
            .checked_add(self.length)
            .ok_or(Refusal::FrameLength)?;
        frames.get(self.place..end).ok_or(Refusal::FrameLength)
    }
}

/// A frame that waits to be sent, and how many idle octets are to follow it.
#[derive(Clone, Copy, Debug, PartialEq, Eq)]
pub struct Job {
    /// Where the frame stands.
    pub frame: FrameSpan,
    /// How many idle octets follow its CLTU, beside what the procedure asks for: none, or 1 to 2,000.
    pub idle: usize,
}

/// What a session is set to, from its making on.
#[derive(Clone, Copy)]
struct Settings {
    plop: Plop,
    sender: Sender,
    idle: IdleOctet,
}

/// A session whose carrier is down.
#[derive(Drop)]
#[must_use]
pub struct Silent {
    settings: Settings,
}

/// A session whose carrier is up and bears no data.
#[derive(Drop)]
#[must_use]
pub struct Carrier {
    settings: Settings,
}

/// A session that has written its acquisition and may send.
#[derive(Drop)]
#[must_use]
pub struct Locked {
    settings: Settings,
}

/// A session in PLOP-1 that has sent its CLTU.
#[derive(Drop)]
#[must_use]
pub struct Sent {
    settings: Settings,
}

/// The session after a frame was sent.
#[derive(Drop)]
#[must_use]
pub enum AfterSending {
    /// PLOP-1: it takes a break and an acquisition to send another.
    Sent(Sent),
    /// PLOP-2: another may follow at once.
    Locked(Locked),
}

const LEAST_ACQUISITION: usize = 16;

const MOST_ACQUISITION: usize = 255;

const LEAST_IDLE: usize = 1;

const MOST_IDLE: usize = 2000;

impl Settings {
    // Fills the memory with the idle octet.
    fn fill_with_idle(self, memory: &mut [u8])
        ensures { memory.new ≡ repeated self.idle (length memory.old) }
    {
        memory.fill(self.idle.octet());
    }

    // Writes a sequence of idle octets, as many as lie in this range.
    fn write_idle(
        self,
        octets: usize,
        least: usize,
        most: usize,
        memory: &mut [u8],
    ) -> Result<usize, Refusal>
        ensures answer { result ≡ idle_answer least most octets memory.old }
        ensures memory { memory.new ≡ memory_after (repeated self.idle octets) memory.old result }
    {
        if memory.len() < octets {
            return Err(Refusal::MemoryTooShort);
        }
        if !(least..=most).contains(&octets) {
            return Err(Refusal::IdleLength);
        }
        self.fill_with_idle(&mut memory[..octets]);
        Ok(octets)
    }

    // Writes the CLTU of a job's frame, the idle octets of the procedure and those of the job.
    fn write_job(self, frames: &[u8], job: Job, memory: &mut [u8]) -> Result<usize, Refusal>
        ensures answer { result ≡ job_answer self frames.now job memory.old }
        ensures memory { memory.new ≡ memory_after (job_octets self frames.now job) memory.old result }
    {
        let frame = job.frame.within(frames)?;
        let cltu = self.sender.cltu_length(frame.len())?;
        // A sum that is out of range is longer than any memory.
        let behind = job.idle.saturating_add(self.plop.idle_behind());
        if memory.len() < cltu || memory.len() - cltu < behind {
            return Err(Refusal::MemoryTooShort);
        }
        if job.idle > MOST_IDLE {
            return Err(Refusal::IdleLength);
        }
        self.sender.write_cltu(frame, memory)?;
        self.fill_with_idle(&mut memory[cltu..cltu + behind]);
        Ok(cltu + behind)
    }

    // The state behind a frame that was sent.
    fn after_sending(self) -> AfterSending
        ensures { result ≡ state_after self self.plop }
    {
        match self.plop {
            Plop::One => AfterSending::Sent(Sent { settings: self }),
            Plop::Two => AfterSending::Locked(Locked { settings: self }),
        }
    }
}

impl Silent {
    /// A session whose carrier is down. Its procedure, its randomizer, its idle octet and the greatest count of
    /// codeblocks in its CLTUs stay as they are made. Refused with 4 where that count is outside 1 to 147.
    pub fn new(
        plop: Plop,
        limit: usize,
        randomizer: Randomizer,
        idle: IdleOctet,
    ) -> Result<Silent, Refusal>
        ensures made { MatchResult result
            (λ silent. MadeWith plop «limit» randomizer idle silent)
            (λ why. limit_answer «limit» ≡ Err why) }
        ensures promise { CallsPromise }
    {
        let limit = CodeblockLimit::try_from(limit)?;
        Ok(Silent {
            settings: Settings {
                plop,
                sender: Sender { limit, randomizer },
                idle,
            },
        })
    }

    /// Raises the carrier, which bears no data yet.
    pub fn raise(self) -> Carrier
        ensures answer { result ≡ carrier_with self.settings }
        ensures call { IsStep (silent_session self) call_raise (carrier_session result) [] [] }
    {
        let Silent { settings } = self;
        Carrier { settings }
    }
}

impl Carrier {
    /// Writes an acquisition sequence of 16 to 255 octets at the front of the memory, and answers how many octets
    /// it has. A receiver's carrier is up from here to the break. Refused with 2 where the memory is shorter than
    /// that, and with 3 outside that range; then the memory is as it was.
    #[tactic(auto, using(crate::proofs::Fronts::acquired_in_front))]
    pub fn acquire(
        self,
        octets: usize,
        memory: &mut [u8],
    ) -> Result<(Locked, usize), (Carrier, Refusal)>
        ensures answer { result ≡ acquired self (idle_answer 16 255 octets memory.old) }
        ensures memory { memory.new
            ≡ memory_after (repeated self.settings.idle octets) memory.old (idle_answer 16 255 octets memory.old) }
        ensures stretch { IfOk result
            (λ done. take done.1 memory.new ≡ stretch_octets (parameters_of self.settings) octets []) }
        ensures call { let call = call_acquire octets memory.old in
            MatchResult result
            (λ done. IsStep (carrier_session self) call (locked_session done.0) (take done.1 memory.new) [])
            (λ back. IsStep (carrier_session self) call (carrier_session back.0) [] []) }
        ensures promise { SessionPromise }
    {
        let settings = self.settings;
        match settings.write_idle(octets, LEAST_ACQUISITION, MOST_ACQUISITION, memory) {
            Ok(octets) => Ok((Locked { settings }, octets)),
            Err(refusal) => Err((self, refusal)),
        }
    }

    /// Lowers the carrier.
    pub fn lower(self) -> Silent
        ensures answer { result ≡ silent_with self.settings }
        ensures call { IsStep (carrier_session self) call_lower (silent_session result) [] [] }
    {
        let Carrier { settings } = self;
        Silent { settings }
    }
}

impl Locked {
    /// Writes an idle sequence of 1 to 2,000 octets at the front of the memory, and answers how many octets it has.
    /// Refused with 2 where the memory is shorter than that, and with 3 outside that range; then the memory
    /// is as it was.
    #[tactic(auto, using(crate::proofs::Fronts::idle_in_front))]
    pub fn idle(&self, octets: usize, memory: &mut [u8]) -> Result<usize, Refusal>
        ensures answer { result ≡ idle_answer 1 2000 octets memory.old }
        ensures memory { memory.new ≡ memory_after (repeated self.now.settings.idle octets) memory.old result }
        ensures stretch { IfOk result
            (λ count. GoesOn self.now.settings (idles octets ∷ []) (take count memory.new)) }
        ensures call { let here = locked_session self.now in
            let call = call_idle octets memory.old in
            MatchResult result
            (λ count. IsStep here call here (take count memory.new) [])
            (λ why. IsStep here call here [] []) }
    {
        self.settings
            .write_idle(octets, LEAST_IDLE, MOST_IDLE, memory)
    }

    /// Writes the CLTU of a frame at the front of the memory, and in PLOP-2 an idle octet behind it. Answers how many
    /// octets these are. Refused with 1 where the frame is empty, has more than 1,024 octets or more than the
    /// limit's codeblocks hold, or is not wholly in the frame memory, and with 2 where the memory is too short;
    /// then the memory is as it was.
    pub fn send(
        self,
        frames: &[u8],
        frame: FrameSpan,
        memory: &mut [u8],
    ) -> Result<(AfterSending, usize), (Locked, Refusal)>
        ensures answer { result ≡ sending self (job_answer self.settings frames.now (only_frame frame) memory.old) }
        ensures memory { let answer = job_answer self.settings frames.now (only_frame frame) memory.old in
            memory.new ≡ memory_after (job_octets self.settings frames.now (only_frame frame)) memory.old answer }
        ensures stretch { IfOk result
            (λ done. GoesOn self.settings (writings_of frames.now (only_frame frame)) (take done.1 memory.new)) }
        ensures fits { let limit = limit_of self.settings in
            IfOk result (λ _. FramesWithin limit (frames_in (writings_of frames.now (only_frame frame)))) }
        ensures call { let call = call_send frames.now frame memory.old in
            let frames = frame_at frames.now frame ∷ [] in
            MatchResult result
            (λ done. IsStep (locked_session self) call (session_after done.0) (take done.1 memory.new) frames)
            (λ back. IsStep (locked_session self) call (locked_session back.0) [] []) }
    {
        self.run(frames, Job { frame, idle: 0 }, memory)
    }

    /// Does the job that waits longest: writes the CLTU of its frame at the front of the memory, the idle octet of
    /// PLOP-2, and the job's idle octets. Answers how many octets these are. The job no longer waits then. In PLOP-1
    /// the session is `Sent` behind it, so that the next job waits for a break and an acquisition. Refused
    /// with 1 and 2 as a frame is that is sent, with 3 where the job's idle octets are more than 2,000, and with
    /// 15 where no job waits; then the memory is as it was, and so are the queue and the memory under it.
    pub fn run_next(
        self,
        jobs: &mut Queue<'_, Job>,
        frames: &[u8],
        memory: &mut [u8],
    ) -> Result<(AfterSending, usize), (Locked, Refusal)>
        ensures answer { result ≡ sending self (next_answer self.settings frames.now (waiting jobs.old) memory.old) }
        ensures memory { let answer = next_answer self.settings frames.now (waiting jobs.old) memory.old in
            memory.new ≡ memory_after (next_octets self.settings frames.now (waiting jobs.old)) memory.old answer }
        ensures accepted { OnOk result (slots_of jobs.new ≡ without_oldest (slots_of jobs.old)) }
        ensures refused { OnErr result (jobs.new ≡ jobs.old) }
        ensures stretch { let writings = next_writings self.settings frames.now (waiting jobs.old) in
            IfOk result (λ done. GoesOn self.settings writings (take done.1 memory.new)) }
        ensures fits { let writings = next_writings self.settings frames.now (waiting jobs.old) in
            IfOk result (λ _. FramesWithin (limit_of self.settings) (frames_in writings)) }
        ensures call { let call = call_run_next (waiting jobs.old) frames.now memory.old in
            let frames = frames_in (next_writings self.settings frames.now (waiting jobs.old)) in
            MatchResult result
            (λ done. IsStep (locked_session self) call (session_after done.0) (take done.1 memory.new) frames)
            (λ back. IsStep (locked_session self) call (locked_session back.0) [] []) }
    {
        let Some(job) = jobs.front().copied() else {
            return Err((self, Refusal::QueueEmpty));
        };
        let after = self.run(frames, job, memory)?;
        let _ = jobs.take();
        Ok(after)
    }

    // Sends a frame and the idle octets of a job.
    fn run(
        self,
        frames: &[u8],
        job: Job,
        memory: &mut [u8],
    ) -> Result<(AfterSending, usize), (Locked, Refusal)>
        ensures answer { result ≡ sending self (job_answer self.settings frames.now job memory.old) }
        ensures memory { let answer = job_answer self.settings frames.now job memory.old in
            memory.new ≡ memory_after (job_octets self.settings frames.now job) memory.old answer }
    {
        let settings = self.settings;
        match settings.write_job(frames, job, memory) {
            Ok(octets) => Ok((settings.after_sending(), octets)),
            Err(refusal) => Err((self, refusal)),
        }
    }

    /// Breaks the modulation: the carrier bears no data any more, and a receiver's carrier is down.
    pub fn break_modulation(self) -> Carrier
        ensures answer { result ≡ carrier_with self.settings }
        ensures call { IsStep (locked_session self) call_break (carrier_session result) [] [] }
    {
        let Locked { settings } = self;
        Carrier { settings }
    }
}

impl Sent {
    /// Writes an idle sequence of 1 to 2,000 octets, as `Locked::idle` does.
    #[tactic(auto, using(crate::proofs::Fronts::idle_in_front))]
    pub fn idle(&self, octets: usize, memory: &mut [u8]) -> Result<usize, Refusal>
        ensures answer { result ≡ idle_answer 1 2000 octets memory.old }
        ensures memory { memory.new ≡ memory_after (repeated self.now.settings.idle octets) memory.old result }
        ensures stretch { IfOk result
            (λ count. GoesOn self.now.settings (idles octets ∷ []) (take count memory.new)) }
        ensures call { let here = sent_session self.now in
            let call = call_idle octets memory.old in
            MatchResult result
            (λ count. IsStep here call here (take count memory.new) [])
            (λ why. IsStep here call here [] []) }
    {
        self.settings
            .write_idle(octets, LEAST_IDLE, MOST_IDLE, memory)
    }

    /// Breaks the modulation: the carrier bears no data any more, and a receiver's carrier is down.
    pub fn break_modulation(self) -> Carrier
        ensures answer { result ≡ carrier_with self.settings }
        ensures call { IsStep (sent_session self) call_break (carrier_session result) [] [] }
    {
        let Sent { settings } = self;
        Carrier { settings }
    }
}

#[cfg(test)]
mod tests {
    use super::*;
    use std::test::Fail;

    // A frame of two octets behind one octet that is not its own.
    const FRAMES: [u8; 3] = [0xFF, 1, 2];

    const FRAME: FrameSpan = FrameSpan {
        place: 1,
        length: 2,
    };

    // In PLOP-1, randomized, with idle AA: acquisition and idle, the CLTU, idle, and memory behind.
    const STRETCH: [u8; 40] = [
        0xAA, 0xAA, 0xAA, 0xAA, 0xAA, 0xAA, 0xAA, 0xAA, 0xAA, 0xAA, 0xAA, 0xAA, 0xAA, 0xAA, 0xAA,
        0xAA, 0xAA, 0xEB, 0x90, 0xFE, 0x3B, 0xCB, 0x0F, 0x3D, 0xBC, 0x53, 0x88, 0xC5, 0xC5, 0xC5,
        0xC5, 0xC5, 0xC5, 0xC5, 0x79, 0xAA, 0xAA, 0, 0, 0,
    ];

    // In PLOP-2, with idle 55: acquisition, the CLTU, an idle octet, a job's, and memory behind.
    const STRETCH_WITH_JOB: [u8; 60] = [
        0x55, 0x55, 0x55, 0x55, 0x55, 0x55, 0x55, 0x55, 0x55, 0x55, 0x55, 0x55, 0x55, 0x55, 0x55,
        0x55, 0xEB, 0x90, 1, 2, 0x55, 0x55, 0x55, 0x55, 0x55, 0xD0, 0xC5, 0xC5, 0xC5, 0xC5, 0xC5,
        0xC5, 0xC5, 0x79, 0x55, 0xEB, 0x90, 1, 2, 0x55, 0x55, 0x55, 0x55, 0x55, 0xD0, 0xC5, 0xC5,
        0xC5, 0xC5, 0xC5, 0xC5, 0xC5, 0x79, 0x55, 0x55, 0x55, 0x55, 0, 0, 0,
    ];

    fn accepted<S, T: Drop>(answer: Result<S, (T, Refusal)>) -> Result<S, Refusal> {
        answer.map_err(|(_, refusal)| refusal)
    }

    fn refused<S: Drop, T>(answer: Result<S, (T, Refusal)>) -> Result<(T, Refusal), &'static str> {
        match answer {
            Ok(_) => Err("not refused"),
            Err(refused) => Ok(refused),
        }
    }

    fn now_sent(after: AfterSending) -> Result<Sent, &'static str> {
        match after {
            AfterSending::Sent(sent) => Ok(sent),
            AfterSending::Locked(_) => Err("still locked"),
        }
    }

    fn still_locked(after: AfterSending) -> Result<Locked, &'static str> {
        match after {
            AfterSending::Sent(_) => Err("not locked"),
            AfterSending::Locked(locked) => Ok(locked),
        }
    }

    #[test]
    fn plop_1(rt: HostRuntime) -> Result<(), Fail> {
        let mut memory = [0; 40];
        let silent = Silent::new(Plop::One, 147, Randomizer::On, IdleOctet::OneFirst)?;
        let carrier = silent.raise().lower().raise();
        let (locked, acquisition) = accepted(carrier.acquire(16, &mut memory))?;
        let idle = locked.idle(1, &mut memory[16..])?;
        let (after, octets) = accepted(locked.send(&FRAMES, FRAME, &mut memory[17..]))?;
        let sent = now_sent(after)?;
        let more = sent.idle(2, &mut memory[35..])?;
        assert!(rt; acquisition == 16 && idle == 1 && octets == 18 && more == 2);
        assert!(rt; memory == STRETCH);
        let _ = accepted(sent.break_modulation().acquire(255, &mut [0; 255]))?;
        Ok(())
    }

    #[test]
    fn plop_2_with_a_job(rt: HostRuntime) -> Result<(), Fail> {
        let mut memory = [0; 60];
        let job = Job {
            frame: FRAME,
            idle: 3,
        };
        let mut slots = [job; 1];
        let mut jobs = Queue::new(&mut slots);
        jobs.put(job)?;
        let silent = Silent::new(Plop::Two, 1, Randomizer::Off, IdleOctet::ZeroFirst)?;
        let (locked, _) = accepted(silent.raise().acquire(16, &mut memory))?;
        let (after, octets) = accepted(locked.send(&FRAMES, FRAME, &mut memory[16..]))?;
        let locked = still_locked(after)?;
        let (after, of_job) = accepted(locked.run_next(&mut jobs, &FRAMES, &mut memory[35..]))?;
        assert!(rt; octets == 19 && of_job == 22 && jobs.len() == 0);
        assert!(rt; memory == STRETCH_WITH_JOB);
        let _ = still_locked(after)?.break_modulation().lower();
        Ok(())
    }

    #[test]
    fn refusals(rt: HostRuntime) -> Result<(), Fail> {
        let plop = Plop::Two;
        for limit in [0, 148] {
            let made = Silent::new(plop, limit, Randomizer::Off, IdleOctet::ZeroFirst);
            assert!(rt; made.err() == Some(Refusal::CodeblockLimit));
        }
        let mut memory = [7; 2100];
        let mut carrier = Silent::new(plop, 1, Randomizer::Off, IdleOctet::ZeroFirst)?.raise();
        for (octets, refusal) in [
            (15, Refusal::IdleLength),
            (256, Refusal::IdleLength),
            (2101, Refusal::MemoryTooShort),
        ] {
            let (back, why) = refused(carrier.acquire(octets, &mut memory))?;
            assert!(rt; why == refusal && memory == [7; 2100]);
            carrier = back;
        }
        let (mut locked, _) = accepted(carrier.acquire(16, &mut [0; 16]))?;
        assert!(rt; locked.idle(0, &mut memory) == Err(Refusal::IdleLength));
        assert!(rt; locked.idle(2001, &mut memory) == Err(Refusal::IdleLength));
        for (place, length, idle, refusal) in [
            (usize::MAX, 2, 2001, Refusal::FrameLength),
            (2, 2, 0, Refusal::FrameLength),
            (1, 0, 0, Refusal::FrameLength),
            (1, 2, 2082, Refusal::MemoryTooShort),
            (1, 2, 2001, Refusal::IdleLength),
        ] {
            let job = Job {
                frame: FrameSpan { place, length },
                idle,
            };
            let mut slots = [job; 1];
            let mut jobs = Queue::new(&mut slots);
            let (back, none) = refused(locked.run_next(&mut jobs, &FRAMES, &mut memory))?;
            jobs.put(job)?;
            let (back, why) = refused(back.run_next(&mut jobs, &FRAMES, &mut memory))?;
            assert!(rt; none == Refusal::QueueEmpty && why == refusal);
            assert!(rt; memory == [7; 2100] && jobs.front() == Some(&job));
            locked = back;
        }
        let _ = locked.break_modulation();
        Ok(())
    }
}
