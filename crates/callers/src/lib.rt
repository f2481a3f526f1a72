//! How a client uses a receiver and a session: each function here is proved from the public contracts of its calls
//! alone, and is meant to be copied.
#![tactic(auto)]

mod both_ends;
mod carrier;
mod command;
mod making;
mod recovery;

pub use both_ends::{SenderSettings, send_two};
pub use command::receive_command;
pub use making::listening;
pub use recovery::recover;

// Each public function once over a hold of each kind, and a receiver over lent cells in the ways in which a client
// keeps one: in a variable, lent on, and in a struct of his own.
#[cfg(test)]
mod tests {
    use super::*;
    use bch::Mode;
    use chain::{Chain, LinkedCell};
    use cltu::{CodeblockLimit, Sender};
    use decoding::Settings;
    use derandomizing::Derandomizing;
    use hold::Hold;
    use one_cell::OneCell;
    use procedures::IdleOctet;
    use queue::Queue;
    use randomizer::Randomizer;
    use receiver::{Receiver, ReceiverState};
    use reception::{Report, recovery_bits};
    use refusals::Refusal;
    use ring::{Cell, Ring};
    use std::test::Fail;

    // Idle for a limit of one codeblock when correcting.
    const IDLE: usize = 131;

    // A frame of two octets as the CLTU of one codeblock, with a wrong bit in the codeblock.
    const CLTU: [u8; 18] = [
        0xEB, 0x90, 0x01, 0x02, 0x55, 0x55, 0x55, 0x57, 0x55, 0xD0, 0xC5, 0xC5, 0xC5, 0xC5, 0xC5,
        0xC5, 0xC5, 0x79,
    ];

    const FRAME: [u8; 7] = [0x01, 0x02, 0x55, 0x55, 0x55, 0x55, 0x55];

    fn bits(octets: &[u8; 18]) -> [bool; 144] {
        let mut bits = [false; 144];
        for (i, bit) in bits.iter_mut().enumerate() {
            *bit = octets[i / 8] >> (7 - i % 8) & 1 == 1;
        }
        bits
    }

    // The CLTU, and behind it an octet of idle that begins with this bit.
    fn with_octet_behind(first: bool) -> [bool; 152] {
        let mut symbols = [false; 152];
        symbols[..144].copy_from_slice(&bits(&CLTU));
        for (i, bit) in symbols[144..].iter_mut().enumerate() {
            *bit = first == (i % 2 == 0);
        }
        symbols
    }

    fn sender(limit: usize, randomizer: Randomizer) -> SenderSettings {
        SenderSettings {
            limit,
            randomizer,
            idle: IdleOctet::ZeroFirst,
        }
    }

    // A client's own, which keeps a receiver over lent cells beside a queue. Its methods lend both to one
    // call: the checker does not follow a function that owns a board and lends one field beside the other.
    #[derive(Drop)]
    struct Board<'a> {
        receiver: Receiver<Ring<'a>>,
        reports: Queue<'a, Report>,
    }

    impl Board<'_> {
        fn recover(&mut self, idle: &mut [bool]) -> Result<ReceiverState, Refusal> {
            recover(&mut self.receiver, true, idle, &mut self.reports)?;
            Ok(self.receiver.state())
        }

        fn hear(&mut self, symbols: &[bool]) -> Result<usize, Refusal> {
            self.receiver.symbols(symbols, &mut self.reports)
        }

        fn command(&mut self, symbols: &[bool], memory: &mut [u8]) -> Result<usize, Refusal> {
            receive_command(&mut self.receiver, symbols, &mut self.reports, memory)
        }
    }

    // A client that is generic over what it is lent.
    fn command_over<H: Hold>(
        receiver: &mut Receiver<H>,
        memory: &mut [u8],
    ) -> Result<usize, Refusal> {
        let mut slots = [Report::UNUSED; 1];
        let mut reports = Queue::new(&mut slots);
        let mut idle = [false; IDLE];
        recover(receiver, false, &mut idle, &mut reports)?;
        receive_command(receiver, &bits(&CLTU), &mut reports, memory)
    }

    #[test]
    fn idle_is_long_enough(rt: HostRuntime) -> Result<(), Fail> {
        let limit = CodeblockLimit::try_from(1)?;
        assert!(rt; recovery_bits(Mode::Correcting, limit) == IDLE);
        Ok(())
    }

    #[test]
    fn over_a_ring_of_a_board(rt: HostRuntime) -> Result<(), Fail> {
        let mut cells = [Cell::EMPTY; 2];
        let mut slots = [Report::UNUSED; 2];
        let mut board = Board {
            receiver: Receiver::new(Settings::new(Mode::Correcting, 1)?, Ring::new(&mut cells)),
            reports: Queue::new(&mut slots),
        };
        let mut idle = [false; IDLE];
        assert!(rt; board.recover(&mut idle) == Err(Refusal::CarrierDown) && !idle[0]);
        board.receiver.carrier_up()?;
        // A start sequence alone, and then idle in place of codeblocks.
        let symbols = bits(&CLTU);
        board.hear(&symbols[..20])?;
        assert!(rt; board.receiver.state() == ReceiverState::Decode);
        assert!(rt; board.recover(&mut idle)? == ReceiverState::Search);
        let mut memory = [0; 8];
        assert!(rt; board.command(&symbols, &mut memory)? == 7);
        assert!(rt; memory == [0x01, 0x02, 0x55, 0x55, 0x55, 0x55, 0x55, 0]);
        assert!(rt; board.command(&symbols, &mut memory)? == 7);
        assert!(rt; board.receiver.finished_count() == 1);
        Ok(())
    }

    #[test]
    fn over_a_chain_and_a_hold_of_ones_own(rt: HostRuntime) -> Result<(), Fail> {
        let settings = Settings::new(Mode::Correcting, 1)?;
        let mut memory = [0; 7];
        let mut cells = [LinkedCell::EMPTY; 2];
        let mut receiver = listening(settings, Chain::new(&mut cells));
        assert!(rt; command_over(&mut receiver, &mut memory)? == 7 && memory == FRAME);
        let mut receiver = listening(settings, OneCell::new());
        assert!(rt; command_over(&mut receiver, &mut memory[..6]) == Err(Refusal::MemoryTooShort));
        assert!(rt; receiver.finished_count() == 1);
        Ok(())
    }

    #[test]
    fn idle_behind_each_command(rt: HostRuntime) -> Result<(), Fail> {
        let mut slots = [Report::UNUSED; 1];
        let mut reports = Queue::new(&mut slots);
        let mut receiver = listening(Settings::new(Mode::Correcting, 1)?, OneCell::new());
        for first in [false, true] {
            let symbols = with_octet_behind(first);
            for _ in 0..2 {
                let mut memory = [0; 7];
                let octets = receive_command(&mut receiver, &symbols, &mut reports, &mut memory)?;
                assert!(rt; octets == 7 && memory == FRAME);
                assert!(rt; receiver.state() == ReceiverState::Search);
            }
        }
        Ok(())
    }

    #[test]
    fn two_frames_over_a_layer(rt: HostRuntime) -> Result<(), Fail> {
        let mut cells = [Cell::EMPTY; 3];
        let mut slots = [Report::UNUSED; 2];
        let mut reports = Queue::new(&mut slots);
        let hold = Derandomizing::over(Ring::new(&mut cells));
        let mut receiver = Receiver::new(Settings::new(Mode::Detecting, 2)?, hold);
        let mut memory = [0; 80];
        let second = [9; 8];
        let octets = send_two(
            sender(2, Randomizer::On),
            16,
            &FRAME[..2],
            &second,
            &mut memory,
            &mut receiver,
            &mut reports,
        )?;
        // 16 octets of acquisition, CLTUs of one codeblock and of two, and an octet of idle behind each.
        assert!(rt; octets == 62 && receiver.finished_count() == 2);
        let mut candidate = [0; 7];
        assert!(rt; receiver.copy_oldest(&mut candidate)? == 7 && candidate == FRAME);
        receiver.release()?;
        let mut candidate = [0; 14];
        assert!(rt; receiver.copy_oldest(&mut candidate)? == 14);
        assert!(rt; candidate == [9, 9, 9, 9, 9, 9, 9, 9, 0x55, 0x55, 0x55, 0x55, 0x55, 0x55]);
        Ok(())
    }

    #[test]
    fn two_frames_refused(rt: HostRuntime) -> Result<(), Fail> {
        let mut slots = [Report::UNUSED; 1];
        let mut reports = Queue::new(&mut slots);
        let mut receiver = Receiver::new(Settings::new(Mode::Detecting, 2)?, OneCell::new());
        let mut memory = [0; 80];
        for (limit, acquisition, length, refusal) in [
            (0, 16, 7, Refusal::CodeblockLimit),
            (1, 15, 7, Refusal::IdleLength),
            (1, 16, 0, Refusal::FrameLength),
            (2, 60, 7, Refusal::MemoryTooShort),
        ] {
            let answer = send_two(
                sender(limit, Randomizer::Off),
                acquisition,
                &FRAME[..length],
                &FRAME,
                &mut memory,
                &mut receiver,
                &mut reports,
            );
            assert!(rt; answer == Err(refusal) && receiver.state() == ReceiverState::Inactive);
        }
        Ok(())
    }

    #[test]
    fn cltu_is_a_sender_s(rt: HostRuntime) -> Result<(), Fail> {
        let sender = Sender {
            limit: CodeblockLimit::try_from(1)?,
            randomizer: Randomizer::Off,
        };
        let mut memory = [0; 18];
        assert!(rt; sender.write_cltu(&FRAME[..2], &mut memory)? == 18);
        // But for the wrong bit.
        memory[7] = memory[7] ^ 2;
        assert!(rt; memory == CLTU);
        Ok(())
    }
}
