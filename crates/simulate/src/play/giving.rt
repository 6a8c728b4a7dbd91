// What the next run is given, and what fails of it.
use super::{Play, split};
use crate::bytes::{number_of, numbers_of, part, push_hex};
use crate::images::disk_of;
use crate::runs::{run_on, whole};
use crate::story::FRAME;
use std::alloc::AllocError;

impl Play {
    // `> LINE`: a line of the next run's input.
    pub(super) fn give(&mut self, line: &str) -> Result<(), AllocError> {
        self.input.extend_from_slice(line.as_bytes())?;
        self.input.push(b'\n')?;
        Ok(())
    }

    // `? LINE`: a line that asks for what stands, in a sweep.
    pub(super) fn ask(&mut self, line: &str) -> Result<(), AllocError> {
        self.asks.extend_from_slice(line.as_bytes())?;
        self.asks.push(b'\n')?;
        Ok(())
    }

    // `bytes DIGITS`: bytes of the next run's input.
    pub(super) fn give_bytes(&mut self, word: &str) -> Result<(), AllocError> {
        if push_hex(&mut self.input, word)? {
            Ok(())
        } else {
            self.refuse()
        }
    }

    // `each FROM TO LINE`: the line for each number, which stands where the line has `%`.
    pub(super) fn give_each(&mut self, rest: &str) -> Result<(), AllocError> {
        let (from, rest) = split(rest);
        let (to, line) = split(rest);
        match (number_of(from), number_of(to)) {
            (Some(from), Some(to)) => self.give_numbered(from, to, line),
            _ => self.refuse(),
        }
    }

    fn give_numbered(&mut self, from: u64, to: u64, line: &str) -> Result<(), AllocError> {
        for number in from..to.saturating_add(1) {
            let digits = format!(in self.alloc; "{number}")?;
            for byte in line.as_bytes() {
                if *byte == b'%' {
                    self.input.extend_from_slice(digits.as_str().as_bytes())?;
                } else {
                    self.input.push(*byte)?;
                }
            }
            self.input.push(b'\n')?;
        }
        Ok(())
    }

    // `frames [NUMBER..]`: the frames that the last run with this word wrote, all or those with these numbers.
    pub(super) fn give_frames(&mut self, rest: &str) -> Result<(), AllocError> {
        if rest.is_empty() {
            return Ok(self.input.extend_from_slice(&self.sent)?);
        }
        let numbers = numbers_of(self.alloc, rest)?;
        for number in &numbers {
            let from = (*number as usize).saturating_mul(FRAME);
            let frame = part(&self.sent, from, from.saturating_add(FRAME));
            self.input.extend_from_slice(frame)?;
        }
        Ok(())
    }

    // `piece COUNT`: each read gives so many bytes from here on.
    pub(super) fn set_piece(&mut self, word: &str) -> Result<(), AllocError> {
        match number_of(word) {
            Some(count) => {
                self.piece = count.max(1) as usize;
                Ok(())
            }
            None => self.refuse(),
        }
    }

    // `fail`, `reads` and `puts` with numbers: calls of the disk, counted from now on, reads and puts of the next run that fail.
    // `stop CALL`, `stop at SYNC`, `stop behind SYNC`, `stop opened`: all calls of the disk fail from this one on, from a sync or from
    // the call behind it, or from that behind an opening.
    pub(super) fn set_fault(&mut self, word: &str, rest: &str) -> Result<(), AllocError> {
        let numbers = numbers_of(self.alloc, rest)?;
        match word {
            "reads" => self.reads = numbers,
            "puts" => self.puts = numbers,
            "fail" => self.fail_at(&numbers)?,
            _ => return self.stop(rest, &numbers),
        }
        Ok(())
    }

    fn fail_at(&mut self, numbers: &[u64]) -> Result<(), AllocError> {
        let mut calls = Vec::new(self.alloc);
        for number in numbers {
            calls.push(self.disk.device().calls().saturating_add(*number))?;
        }
        self.disk.device_mut().fail_at(calls);
        Ok(())
    }

    fn stop(&mut self, rest: &str, numbers: &[u64]) -> Result<(), AllocError> {
        let (word, _) = split(rest);
        let number = numbers.first().copied().unwrap_or(0);
        let call = match word {
            "opened" => self.opening_calls()?,
            "at" => self.sync_call(number)?,
            "behind" => self.sync_call(number)?.saturating_add(1),
            _ => number,
        };
        let first = self.disk.device().calls().saturating_add(call);
        self.disk.device_mut().stop_from(first);
        Ok(())
    }

    // How many calls an opening makes.
    fn opening_calls(&self) -> Result<u64, AllocError> {
        let mut disk = disk_of(self.alloc, self.disk.device().content())?;
        let _ = run_on(self.alloc, "", &mut disk, whole(&[], 1))?;
        Ok(disk.calls())
    }

    // The number of the call that is the sync with this number, from 1 on, of a plain run over the input.
    fn sync_call(&self, number: u64) -> Result<u64, AllocError> {
        let mut disk = disk_of(self.alloc, self.disk.device().content())?;
        let _ = run_on(self.alloc, "", &mut disk, self.fed())?;
        let k = number.saturating_sub(1) as usize;
        Ok(disk.syncs().get(k).copied().unwrap_or(u64::MAX))
    }
}
