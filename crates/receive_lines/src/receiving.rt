ghost use Rattle.std.specs.Prelude.{◌≡◌, length};
ghost use Rattle.queue.specs.Waiting.{waiting, free};

use crate::error::one_more;
use crate::pass_log::PassLog;
use crate::{Form, Place, ReceivingError, View};
use hold::Hold;
use pass_record::{PassRecord, Segment};
use queue::Queue;
use receiver::Receiver;
use reception::{Reason, Report};
use searching::Symbol;
use std::alloc::{AllocError, Global};

/// A receiver that is given a pass, and what is written of it so far.
#[derive(Drop)]
pub(crate) struct Receiving<'a, H: Hold> {
    pub(crate) receiver: Receiver<H>,
    // What the receiver reports, until it is written: between the calls nothing waits here.
    pub(crate) queue: Queue<'a, Report>,
    // The symbol that came last.
    pub(crate) place: Place,
    pub(crate) log: PassLog,
    ghost nothing_waits: { length (waiting queue) ≡ 0 },
    ghost room_for_one: { length (free queue) ≡ 1 },
}

impl<'a, H: Hold> Receiving<'a, H> {
    ghost use Rattle.std.specs.Prelude.{◌+◌, [], ◌∷◌, ◌++◌, suc, map, IfOk, OnOk, string_bytes};
    ghost use Rattle.receive_lines.specs.Lines.{last_line};
    ghost use Rattle.std.specs.Option.{option_to_list};
    ghost use Rattle.reception.specs.Rules.{symbol, carrier_up, carrier_down};
    ghost use Rattle.pass_record.specs.Segments.{segments_in, symbols_in};
    ghost use Rattle.receive_lines.specs.declared.form.Form.TheVariants.{Bits};
    ghost use Rattle.receive_lines.specs.Forms.{symbols_in_octet, symbols_in_octets, IsOfForm, AreOfForm};
    ghost use Rattle.receive_lines.specs.Pass.{placed, place_in, next_symbol, placed_symbols, placed_segment, placed_segments};
    ghost use Rattle.receive_lines.specs.Releasing.{Tells, Passed, PassedSymbols};

    // A receiver before the first segment, of which nothing is written. The slot takes what it reports.
    pub(crate) fn new(
        heap: Global,
        receiver: Receiver<H>,
        slot: &'a mut [Report; 1],
        view: View,
    ) -> Receiving<'a, H>
        ensures receiver { result.receiver ≡ receiver }
        ensures place { result.place ≡ place_in 0 0 }
        ensures view { result.log.view ≡ view }
        ensures text { string_bytes result.log.text ≡ [] }
        ensures reports { result.log.reports ≡ 0 }
        ensures frames { result.log.frames ≡ 0 }
    {
        Receiving {
            receiver,
            queue: Queue::new(slot),
            place: Place {
                segment: 0,
                symbol: 0,
            },
            log: PassLog::new(heap, view),
        }
    }

    // Writes what a report tells. A candidate that was finished is written too, and released.
    // Not inlined, since few symbols make a report.
    #[inline(never)]
    fn tell(&mut self, report: Report) -> Result<(), ReceivingError>
        ensures { OnOk result (Tells H.Hold (report ∷ []) self.old self.new) }
    {
        self.log.write_report(self.place, report)?;
        if report.reason == Reason::Closed {
            self.log.write_oldest(&self.receiver)?;
            // Not refused: the candidate that was finished waits.
            let _ = self.receiver.release();
        }
        Ok(())
    }

    // Writes what a report tells, if there is one.
    #[inline(always)]
    fn tell_any(&mut self, report: Option<Report>) -> Result<(), ReceivingError>
        ensures { OnOk result (Tells H.Hold (option_to_list report) self.old self.new) }
    {
        if let Some(report) = report {
            self.tell(report)?;
        }
        Ok(())
    }

    // One symbol, and what it tells.
    // Inlined: as a call of its own, with the error through memory, a symbol takes twice the time.
    #[inline(always)]
    fn take_symbol(&mut self, bit: bool) -> Result<(), ReceivingError>
        ensures { OnOk result (PassedSymbols H.Hold (bit ∷ []) self.old self.new) }
    {
        let symbol = one_more(self.place.symbol)?;
        self.place.symbol = symbol;
        // Not refused: the carrier is up.
        let _ = self.receiver.symbols(&[bit], &mut self.queue);
        let report = self.queue.take().ok();
        self.tell_any(report)
    }

    // What is written was printed.
    pub(crate) fn clear_text(&mut self)
        ensures receiver { self.new.receiver ≡ self.old.receiver }
        ensures place { self.new.place ≡ self.old.place }
        ensures view { self.new.log.view ≡ self.old.log.view }
        ensures reports { self.new.log.reports ≡ self.old.log.reports }
        ensures frames { self.new.log.frames ≡ self.old.log.frames }
        ensures text { string_bytes self.new.log.text ≡ [] }
    {
        self.log.text.clear();
    }

    // What is written, with the last line.
    pub(crate) fn into_text(self) -> Result<String, AllocError>
    where
        H: Drop,
        ensures { IfOk result (λ s. string_bytes s
            ≡ string_bytes self.entry.log.text
            ++ last_line self.entry.log.view self.entry.log.reports self.entry.log.frames) }
    {
        let Receiving { log, .. } = self;
        log.into_text()
    }

    // A segment begins: the carrier goes up.
    pub(crate) fn begin_segment(&mut self) -> Result<(), ReceivingError>
        ensures log { OnOk result (self.new.log ≡ self.old.log) }
        ensures place { OnOk result (self.new.place ≡ place_in (suc self.old.place.segment) 0) }
        ensures passed { OnOk result (Passed H.Hold
            (placed (place_in (suc self.old.place.segment) 0) carrier_up ∷ []) self.old self.new) }
    {
        let segment = one_more(self.place.segment)?;
        self.place = Place { segment, symbol: 0 };
        // Not refused: the carrier is down between segments.
        let _ = self.receiver.carrier_up();
        Ok(())
    }

    // The end of a segment, and what it tells.
    pub(crate) fn end_segment(&mut self) -> Result<(), ReceivingError>
        ensures place { OnOk result (self.new.place ≡ self.old.place) }
        ensures passed { OnOk result (Passed H.Hold
            (placed self.old.place carrier_down ∷ []) self.old self.new) }
    {
        let _ = self.receiver.carrier_down(&mut self.queue);
        let report = self.queue.take().ok();
        self.tell_any(report)
    }

    // The symbols of a segment, one after the other.
    fn take_symbols(&mut self, segment: Segment<'_>) -> Result<(), ReceivingError>
        ensures { OnOk result (PassedSymbols H.Hold (symbols_in segment.entry) self.old self.new) }
    {
        for bit in segment.bits() {
            self.take_symbol(bit)?;
        }
        Ok(())
    }

    // Bits, one after the other.
    fn take_bits(&mut self, bits: &[bool]) -> Result<(), ReceivingError>
        ensures { OnOk result (PassedSymbols H.Hold bits.now self.old self.new) }
    {
        for bit in bits {
            self.take_symbol(*bit)?;
        }
        Ok(())
    }

    // An octet that is a bit.
    fn take_bit(&mut self, octet: u8) -> Result<(), ReceivingError>
        ensures form { OnOk result (IsOfForm Bits octet) }
        ensures taken { OnOk result (PassedSymbols H.Hold (symbols_in_octet Bits octet) self.old self.new) }
    {
        if octet > 1 {
            let symbol = one_more(self.place.symbol)?;
            return Err(ReceivingError::NoBit { symbol, octet });
        }
        self.take_symbol(octet == 1)
    }

    // The symbols of an octet.
    fn take_octet(&mut self, form: Form, octet: u8) -> Result<(), ReceivingError>
        ensures form { OnOk result (IsOfForm form octet) }
        ensures taken { OnOk result (PassedSymbols H.Hold (symbols_in_octet form octet) self.old self.new) }
    {
        match form {
            Form::Packed => self.take_bits(&Form::octet_bits(octet)),
            Form::Bits => self.take_bit(octet),
            Form::Levels => self.take_symbol(octet.cast_signed().hard_decision()),
        }
    }

    // The symbols of octets, one octet after the other.
    pub(crate) fn take_octets(&mut self, form: Form, octets: &[u8]) -> Result<(), ReceivingError>
        ensures form { OnOk result (AreOfForm form octets.now) }
        ensures taken { OnOk result (PassedSymbols H.Hold (symbols_in_octets form octets.now) self.old self.new) }
    {
        for octet in octets {
            self.take_octet(form, *octet)?;
        }
        Ok(())
    }

    // A segment: the carrier goes up before it and down after it.
    fn take_segment(&mut self, segment: Segment<'_>) -> Result<(), ReceivingError>
        ensures place { OnOk result (self.new.place.segment ≡ suc self.old.place.segment) }
        ensures passed { OnOk result (Passed H.Hold
            (placed_segment (suc self.old.place.segment) (symbols_in segment.entry)) self.old self.new) }
    {
        self.begin_segment()?;
        self.take_symbols(segment)?;
        self.end_segment()
    }

    // All segments of a record, in turn.
    pub(crate) fn take_pass(&mut self, pass: PassRecord<'_>) -> Result<(), ReceivingError>
        ensures { OnOk result (Passed H.Hold
            (placed_segments self.old.place.segment (segments_in pass.entry)) self.old self.new) }
    {
        for segment in pass.segments() {
            self.take_segment(segment)?;
        }
        Ok(())
    }
}
