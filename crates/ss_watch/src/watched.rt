// Devices whose calls are watched. What they answer is what the devices behind them answer.
use crate::watch::Watch;
use ss_outside::{Disk, Failed, Sink, Source};
use std::cell::RefCell;
use std::rt::Clock;

/// A device that does nothing but to pass each call on to the one behind it, and to tell a watch of it.
#[derive(Drop)]
pub struct Watched<'c, 'a, D, R> {
    device: D,
    watch: &'c RefCell<Watch<'a, R>>,
}

impl<'c, 'a, D, R> Watched<'c, 'a, D, R> {
    pub fn new(device: D, watch: &'c RefCell<Watch<'a, R>>) -> Watched<'c, 'a, D, R> {
        Watched { device, watch }
    }

    /// The device whose calls are watched.
    pub fn device(&self) -> &D {
        &self.device
    }
}

impl<S: Source, R: Eprint + Clock + AllocGlobal> Source for Watched<'_, '_, S, R> {
    ghost left = { λ s. S.left s.device };

    ghost faults = { λ s. S.faults s.device };

    ghost taken = { λ s. S.taken s.device };

    fn read(&mut self, into: &mut [u8]) -> Result<usize, Failed> {
        if let Ok(mut watch) = self.watch.try_borrow_mut() {
            watch.begin_read();
        }
        let answer = self.device.read(into);
        if let Ok(count) = answer
            && let Ok(mut watch) = self.watch.try_borrow_mut()
        {
            watch.end_read(&into[..count]);
        }
        answer
    }
}

impl<K: Sink, R: Eprint + Clock + AllocGlobal> Sink for Watched<'_, '_, K, R> {
    ghost held = { λ s. K.held s.device };

    ghost faults = { λ s. K.faults s.device };

    fn put(&mut self, piece: &[u8]) -> Result<usize, Failed> {
        if let Ok(mut watch) = self.watch.try_borrow_mut() {
            watch.begin_put();
        }
        let answer = self.device.put(piece);
        if let Ok(count) = answer
            && let Ok(mut watch) = self.watch.try_borrow_mut()
        {
            watch.end_put(piece, count);
        }
        answer
    }
}

impl<D: Disk, R: Eprint + Clock + AllocGlobal> Disk for Watched<'_, '_, D, R> {
    ghost seen = { λ s. D.seen s.device };

    ghost knows_now = { λ s told. D.knows_now s.device told };

    fn len(&mut self) -> Result<u64, Failed> {
        self.device.len()
    }

    fn read_at(&mut self, at: u64, into: &mut [u8]) -> Result<(), Failed> {
        let answer = self.device.read_at(at, into);
        if answer.is_ok()
            && let Ok(mut watch) = self.watch.try_borrow_mut()
        {
            watch.end_disk_read(into.len());
        }
        answer
    }

    fn write_at(&mut self, at: u64, bytes: &[u8]) -> Result<(), Failed> {
        let answer = self.device.write_at(at, bytes);
        if answer.is_ok()
            && let Ok(mut watch) = self.watch.try_borrow_mut()
        {
            watch.end_write();
        }
        answer
    }

    fn sync(&mut self) -> Result<(), Failed> {
        let answer = self.device.sync();
        if answer.is_ok()
            && let Ok(mut watch) = self.watch.try_borrow_mut()
        {
            watch.end_sync();
        }
        answer
    }
}
