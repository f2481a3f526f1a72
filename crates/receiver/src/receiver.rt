use crate::phase::{Event, Phase};
use crate::receiver_state::ReceiverState;
use crate::state::State;
use decoding::{Decoding, Settings};
use hold::{Hold, copy_oldest};
use queue::Queue;
use reception::Report;
use refusals::Refusal;
use searching::{Symbol, Window};
use std::ops::ControlFlow;

/// A receiver over a hold, which it owns.
#[derive(Drop)]
pub struct Receiver<H: Hold> {
    pub(crate) state: State,
    pub(crate) hold: H,
}

impl<H: Hold> Receiver<H> {
    ghost use Rattle.std.specs.Prelude.{◌≡◌, [], ◌∷◌, length, OnErr};
    ghost use Rattle.hold.specs.Candidates.{oldest_length, oldest_octet, copy_answer, after_copy};
    ghost use Rattle.reception.specs.Symbols.{bit_value};
    ghost use Rattle.reception.specs.Decoding.{added, room};
    ghost use Rattle.reception.specs.Rules.{made, symbol, SEARCH, quietly, at_symbol};
    ghost use Rattle.reception.specs.Calls.{call_up, call_down, symbol_events, call_release, refusal, answered};
    ghost use Rattle.reception.specs.Promise.{ReceiverPromise};
    ghost use Rattle.searching.specs.Symbols.{decisions};
    ghost use Rattle.searching.specs.Windows.{entered, last_bits};
    ghost use Rattle.decoding.specs.Meaning.{rules_of, held_in};
    ghost use Rattle.receiver.specs.Phases.{phase_of};
    ghost use Rattle.receiver.specs.Meaning.{settings_of, lost_of, hold_of, held_by, state_of, free_slots, symbols_call};
    ghost use Rattle.receiver.specs.Calls.{named, reports_made, CameBy, Called};
    ghost use Rattle.receiver.specs.Joined.{PromiseOverCalls};
    ghost use Rattle.receiver.specs.Events.{events_of, refusal_of, refused_by, reported_by, reports_at, Queued, ComesTo, Told, Ran};

    /// A receiver with these settings over a hold in any state, which it owns from then on. The hold's
    /// open candidate, if there is one, is abandoned, its finished ones stay, and the receiver is INACTIVE.
    pub fn new(settings: Settings, hold: H) -> Receiver<H>
        ensures state { state_of H.Hold result ≡ made (held_in H.Hold hold) }
        ensures came { CameBy H.Hold (held_in H.Hold hold) [] result }
        ensures settings { settings_of result ≡ settings }
        ensures lost { lost_of result ≡ 0 }
        ensures promise { ReceiverPromise (rules_of settings) H.Hold.showing }
    {
        let mut hold = hold;
        // Refused where none is open, and then there is nothing to abandon.
        let _ = hold.abandon();
        let state = State {
            settings,
            phase: Phase::Inactive,
            lost: 0,
        };
        Receiver { state, hold }
    }

    /// Carrier up: a search begins. Refused with 5 unless the receiver is INACTIVE.
    #[tactic(auto, using(crate::proofs::Joined::promise_over_calls))]
    pub fn carrier_up(&mut self) -> Result<(), Refusal>
        ensures answer { result ≡ answered (refusal (state_of H.Hold self.old) call_up) tt }
        ensures after { Called H.Hold call_up self.old self.new }
        ensures refused { OnErr result (self.new ≡ self.old) }
        ensures over_calls { PromiseOverCalls H.Hold }
    {
        self.at_event(Event::CarrierUp)?;
        Ok(())
    }

    /// Carrier down: the receiver is INACTIVE. An open candidate is abandoned, and the report of it goes
    /// into the queue or, where that is full, is lost. Refused with 6 where the receiver is INACTIVE.
    #[tactic(auto, using(crate::proofs::Joined::promise_over_calls))]
    pub fn carrier_down(&mut self, reports: &mut Queue<'_, Report>) -> Result<(), Refusal>
        ensures answer { result
            ≡ answered (refusal (state_of H.Hold self.old) (call_down (free_slots reports.old))) tt }
        ensures after { Called H.Hold (call_down (free_slots reports.old)) self.old self.new }
        ensures queued { Queued (reports_made H.Hold self.old (call_down (free_slots reports.old)))
            reports.old reports.new }
        ensures refused { OnErr result ((self.new ≡ self.old) × (reports.new ≡ reports.old)) }
        ensures over_calls { PromiseOverCalls H.Hold }
    {
        self.take_event(Event::CarrierDown, reports)?;
        Ok(())
    }

    /// Symbols of any kind, any number of them. Answers how many reports they made; these go into the queue
    /// or, where that is full, are lost. Refused with 6 where the receiver is INACTIVE, also where there
    /// are no symbols.
    pub fn symbols<S: Symbol>(
        &mut self,
        symbols: &[S],
        reports: &mut Queue<'_, Report>,
    ) -> Result<usize, Refusal>
        ensures answer { result
            ≡ answered (refusal (state_of H.Hold self.old) (symbols_call S.Symbol symbols.now reports.old))
            (length (reports_made H.Hold self.old (symbols_call S.Symbol symbols.now reports.old))) }
        ensures after { Called H.Hold (symbols_call S.Symbol symbols.now reports.old) self.old self.new }
        ensures queued { Queued (reports_made H.Hold self.old (symbols_call S.Symbol symbols.now reports.old))
            reports.old reports.new }
        ensures refused { OnErr result ((self.new ≡ self.old) × (reports.new ≡ reports.old)) }
        ensures over_calls { PromiseOverCalls H.Hold }
    {
        self.at_event(Event::Symbols)?;
        Ok(self.take_symbols(symbols, reports))
    }

    /// Removes the oldest finished candidate from the hold. Refused with 7 where none waits.
    #[tactic(auto, using(crate::proofs::Joined::promise_over_calls))]
    pub fn release(&mut self) -> Result<(), Refusal>
        ensures answer { result ≡ answered (refusal (state_of H.Hold self.old) call_release) tt }
        ensures after { Called H.Hold call_release self.old self.new }
        ensures refused { OnErr result (self.new ≡ self.old) }
        ensures over_calls { PromiseOverCalls H.Hold }
    {
        self.hold.release()
    }

    /// Ends the receiver and gives back its hold, whose open candidate, if there is one, stays open.
    pub fn into_hold(self) -> H
        ensures hold { result ≡ hold_of self }
        ensures held { held_in H.Hold result ≡ held_by H.Hold self }
    {
        let Receiver { hold, .. } = self;
        hold
    }

    /// INACTIVE, SEARCH or DECODE.
    pub fn state(&self) -> ReceiverState
        ensures { result ≡ named (state_of H.Hold self.now).phase }
    {
        match self.state.phase {
            Phase::Inactive => ReceiverState::Inactive,
            Phase::Search(_) => ReceiverState::Search,
            Phase::Decode(_) => ReceiverState::Decode,
        }
    }

    /// How many reports found no place in the caller's queue, up to 65,535.
    pub fn lost(&self) -> u16
        ensures { result ≡ lost_of self.now }
    {
        self.state.lost
    }

    /// How many codeblocks the hold can still take.
    pub fn free_space(&self) -> usize
        ensures { result ≡ room (held_by H.Hold self.now) }
    {
        self.hold.free_space()
    }

    /// How many codeblocks the open candidate has: 0 where none is open.
    pub fn open_codeblocks(&self) -> usize
        ensures { result ≡ added (held_by H.Hold self.now) }
    {
        self.hold.open_codeblocks()
    }

    /// How many finished candidates wait.
    pub fn finished_count(&self) -> usize
        ensures { result ≡ length (held_by H.Hold self.now).finished }
    {
        self.hold.finished_count()
    }

    /// How many octets the oldest finished candidate has. Refused with 7 where none waits.
    pub fn oldest_length(&self) -> Result<usize, Refusal>
        ensures { result ≡ oldest_length (held_by H.Hold self.now).finished }
    {
        self.hold.oldest_length()
    }

    /// The octet at a place of the oldest finished candidate. Refused with 7 where none waits, and with 8
    /// at or past its end.
    pub fn oldest_octet(&self, place: usize) -> Result<u8, Refusal>
        ensures { result ≡ oldest_octet (held_by H.Hold self.now).finished place }
    {
        self.hold.oldest_octet(place)
    }

    /// Copies the oldest finished candidate to the front of the memory and answers how many octets it
    /// has; the rest of the memory is as it was. Refused with 2 where the memory is too short for it, and
    /// with 7 where none waits; then the memory is as it was.
    pub fn copy_oldest(&self, memory: &mut [u8]) -> Result<usize, Refusal>
        ensures answer { result ≡ copy_answer (held_by H.Hold self.now).finished memory.old }
        ensures memory { memory.new ≡ after_copy (held_by H.Hold self.now).finished memory.old }
    {
        copy_oldest(&self.hold, memory)
    }

    // Symbols one after the other: how many reports they made. In INACTIVE they change nothing.
    fn take_symbols<S: Symbol>(&mut self, symbols: &[S], reports: &mut Queue<'_, Report>) -> usize
        ensures made { result ≡ length (reports_at H.Hold self.old (symbol_events (decisions S.Symbol symbols.now))) }
        ensures ran { Ran H.Hold (symbol_events (decisions S.Symbol symbols.now))
            self.old self.new reports.old reports.new }
    {
        let mut made = 0;
        for symbol in symbols {
            made += usize::from(self.take_symbol(symbol.hard_decision(), reports));
        }
        made
    }

    // One symbol: whether it made a report. In INACTIVE it changes nothing.
    fn take_symbol(&mut self, bit: bool, reports: &mut Queue<'_, Report>) -> bool
        ensures made { bit_value result ≡ length (reports_at H.Hold self.old (symbol bit ∷ [])) }
        ensures ran { Ran H.Hold (symbol bit ∷ []) self.old self.new reports.old reports.new }
    {
        matches!(self.take_event(Event::Symbol(bit), reports), Ok(Some(_)))
    }

    // One event: the report that it made, if any, which is told.
    fn take_event(
        &mut self,
        event: Event,
        reports: &mut Queue<'_, Report>,
    ) -> Result<Option<Report>, Refusal>
        ensures refused { refused_by result ≡ refusal_of (state_of H.Hold self.old).phase event }
        ensures reported { reported_by result ≡ reports_at H.Hold self.old (events_of event) }
        ensures ran { Ran H.Hold (events_of event) self.old self.new reports.old reports.new }
        ensures unchanged { OnErr result ((self.new ≡ self.old) × (reports.new ≡ reports.old)) }
    {
        let made = self.at_event(event)?;
        if let Some(report) = made {
            self.put(report, reports);
        }
        Ok(made)
    }

    // Puts a report into the caller's queue, or counts it as lost where that is full.
    fn put(&mut self, report: Report, reports: &mut Queue<'_, Report>)
        ensures { Told H.Hold (report ∷ []) self.old self.new reports.old reports.new }
    {
        if reports.put(report).is_err() {
            self.state.lost = self.state.lost.saturating_add(1);
        }
    }

    // A symbol in SEARCH, with this window so far.
    // The phase is written in each branch: chosen first and then moved, it goes through memory.
    fn search(&mut self, window: Window, bit: bool)
        ensures outcome { quietly (state_of H.Hold self.new).phase (held_by H.Hold self.new)
            ≡ at_symbol (rules_of (settings_of self.old)) H.Hold.showing
            (SEARCH (entered window) (last_bits window)) (held_by H.Hold self.old) bit }
        ensures settings { settings_of self.new ≡ settings_of self.old }
        ensures lost { lost_of self.new ≡ lost_of self.old }
    {
        let window = window.with(bit);
        if window.is_start(self.state.settings.mode) {
            self.state.phase = Phase::Decode(Decoding::begin(&mut self.hold));
        } else {
            self.state.phase = Phase::Search(window);
        }
    }

    // What state and event together ask for. A refused event changes nothing.
    fn at_event(&mut self, event: Event) -> Result<Option<Report>, Refusal>
        ensures refused { refused_by result ≡ refusal_of (state_of H.Hold self.old).phase event }
        ensures reported { reported_by result ≡ reports_at H.Hold self.old (events_of event) }
        ensures after { ComesTo H.Hold (events_of event) self.old self.new }
        ensures unchanged { OnErr result (self.new ≡ self.old) }
    {
        match (self.state.phase, event) {
            (Phase::Inactive, Event::CarrierUp) => {
                self.state.phase = Phase::Search(Window::empty());
                Ok(None)
            }
            (Phase::Inactive, Event::CarrierDown) => Err(Refusal::CarrierDown),
            (Phase::Inactive, Event::Symbols) => Err(Refusal::CarrierDown),
            (Phase::Inactive, Event::Symbol(_)) => Err(Refusal::CarrierDown),
            (Phase::Search(_), Event::CarrierUp) => Err(Refusal::CarrierAlreadyUp),
            (Phase::Search(_), Event::CarrierDown) => {
                self.state.phase = Phase::Inactive;
                Ok(None)
            }
            (Phase::Search(_), Event::Symbols) => Ok(None),
            (Phase::Search(window), Event::Symbol(bit)) => {
                self.search(window, bit);
                Ok(None)
            }
            (Phase::Decode(_), Event::CarrierUp) => Err(Refusal::CarrierAlreadyUp),
            (Phase::Decode(decoding), Event::CarrierDown) => {
                self.state.phase = Phase::Inactive;
                Ok(Some(decoding.lose_carrier(&mut self.hold)))
            }
            (Phase::Decode(_), Event::Symbols) => Ok(None),
            (Phase::Decode(decoding), Event::Symbol(bit)) => {
                match decoding.symbol(&mut self.hold, self.state.settings, bit) {
                    ControlFlow::Continue(decoding) => {
                        self.state.phase = Phase::Decode(decoding);
                        Ok(None)
                    }
                    ControlFlow::Break(report) => {
                        self.state.phase = Phase::Search(Window::empty());
                        Ok(Some(report))
                    }
                }
            }
        }
    }
}
