// An answer as C gets it: its number is returned, and its values go to the words of `out` (specs/Outs.antt), each of them in every case.
ghost use Rattle.std.specs.Prelude.{◌≡◌};
ghost use Rattle.network.specs.Refusals.{numbered};
ghost use Rattle.network.specs.Calls.{moved_number, credit_number, found_number, drained_number, drained_stop};
ghost use Rattle.waveform.specs.Calls.{written_number, read_number};
ghost use Rattle.bench_c.specs.Outs.{moved_out, credit_out, found_out, stop_number, drained_out, written_out, read_out};

use network::{Drained, NamedMove, Refusal, Stop, drained_delivered, drained_moves, number_of};
use waveform::StepRead;

#[tactic(auto, unfolding(network::specs::Calls::moved_number, network::specs::Calls::moved_packets, network::specs::Refusals::head, crate::specs::Outs::moved_out))]
pub fn moved(out: &mut [u64; 2], m: Result<Option<u64>, Refusal>) -> u64
    ensures answer { result ≡ moved_number (numbered m) }
    ensures out { out.new ≡ moved_out (numbered m) }
{
    match m {
        Err(refusal) => {
            *out = [0, 0];
            u64::from(refusal)
        }
        Ok(None) => {
            *out = [0, 0];
            0
        }
        Ok(Some(p)) => {
            *out = [1, p];
            0
        }
    }
}

pub fn credit(out: &mut [u64; 1], c: Result<u64, Refusal>) -> u64
    ensures answer { result ≡ credit_number (numbered c) }
    ensures out { out.new ≡ credit_out (numbered c) }
{
    *out = [c.unwrap_or(0)];
    number_of(&c)
}

#[tactic(auto, unfolding(network::specs::Calls::found_number, network::specs::Calls::found_move, crate::specs::Outs::found_out))]
pub fn found(out: &mut [u64; 4], f: Result<Option<NamedMove>, Refusal>) -> u64
    ensures answer { result ≡ found_number (numbered f) }
    ensures out { out.new ≡ found_out (numbered f) }
{
    match f {
        Err(refusal) => {
            *out = [0, 0, 0, 0];
            u64::from(refusal)
        }
        Ok(None) => {
            *out = [0, 0, 0, 0];
            0
        }
        Ok(Some(m)) => {
            *out = [1, m.node, m.queue, m.output];
            0
        }
    }
}

// Why it stopped. A refused Drain has no stop, and its number is that of emptied (D61).
pub fn stop_number(d: &Result<Drained, Refusal>) -> u64
    ensures { result ≡ stop_number (drained_stop (numbered d.now)) }
{
    match d {
        Err(_) => 0,
        Ok(drained) => match drained.stop {
            Stop::Emptied => 0,
            Stop::Spent => 1,
            Stop::Full => 2,
        },
    }
}

pub fn drained(out: &mut [u64; 3], d: Result<Drained, Refusal>) -> u64
    ensures answer { result ≡ drained_number (numbered d) }
    ensures out { out.new ≡ drained_out (numbered d) }
{
    let moves = drained_moves(&d);
    let delivered = drained_delivered(&d);
    let why = stop_number(&d);
    *out = [moves, delivered, why];
    number_of(&d)
}

#[tactic(auto, unfolding(waveform::specs::Calls::written_number, waveform::specs::Calls::written_length, crate::specs::Outs::written_out))]
pub fn written(out: &mut [u64; 1], w: Result<usize, Refusal>) -> u64
    ensures answer { result ≡ written_number (numbered w) }
    ensures out { out.new ≡ written_out (numbered w) }
{
    match w {
        Err(refusal) => {
            *out = [0];
            u64::from(refusal)
        }
        Ok(n) => {
            *out = [n as u64];
            0
        }
    }
}

#[tactic(auto, unfolding(waveform::specs::Calls::read_number, waveform::specs::Calls::read_headers, waveform::specs::Calls::read_time, waveform::specs::Calls::read_named, crate::specs::Outs::read_out))]
pub fn step_read(out: &mut [u64; 3], s: Result<StepRead, Refusal>) -> u64
    ensures answer { result ≡ read_number (numbered s) }
    ensures out { out.new ≡ read_out (numbered s) }
{
    match s {
        Err(refusal) => {
            *out = [0, 0, 0];
            u64::from(refusal)
        }
        Ok(StepRead::Header { time, named }) => {
            *out = [1, time, named as u64];
            0
        }
        Ok(StepRead::Later { time, named }) => {
            *out = [0, time, named as u64];
            0
        }
    }
}
