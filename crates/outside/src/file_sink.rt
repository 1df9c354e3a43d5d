// A sink of real files. It tells nothing of what it wrote.
ghost use Rattle.std.specs.Prelude.{◌≡◌, false};

use crate::{Failed, FrameSink};
use std::fs;
use std::io::Write;
use std::marker::Model;
use std::rt::Files;

/// A sink that puts each frame into a file of the frame's name, in the place of an earlier one.
///
/// It tells nothing of what it wrote, but whether a frame is open.
#[derive(Drop)]
pub struct FileSink<'r, R: Files> {
    rt: &'r R,
    file: Option<R::File>,
    faults: u64,
}

impl<'r, R: Files> Model for FileSink<'r, R> {
    ghost use Rattle.std.specs.Prelude.{is_some};
    ghost use Rattle.outside.specs.SinkState.{SinkState};

    ghost Value = { SinkState };

    ghost view = { λ s. record { is_open = is_some s.file; faults = s.faults } };
}

impl<'r, R: Files> FileSink<'r, R> {
    /// A sink over this runtime's files, with no frame open.
    pub fn new(rt: &'r R) -> Self
        ensures { result ≡ record { is_open = false; faults = 0 } }
    {
        FileSink {
            rt,
            file: None,
            faults: 0,
        }
    }
}

impl<'r, R: Files> FrameSink for FileSink<'r, R> {
    ghost use Rattle.std.specs.Prelude.{None};

    ghost written = { λ s. None };

    ghost is_open = { λ s. s.is_open };

    ghost faults = { λ s. s.faults };

    fn begin(&mut self, name: &str) -> Result<(), Failed> {
        match fs::create(self.rt, name) {
            Ok(file) => {
                self.file = Some(file);
                Ok(())
            }
            Err(_) => {
                self.faults = self.faults.saturating_add(1);
                Err(Failed)
            }
        }
    }

    fn put(&mut self, piece: &[u8]) -> Result<usize, Failed> {
        let Some(file) = &mut self.file else {
            unreachable!()
        };
        match file.write(piece) {
            Ok(count) if count > 0 => Ok(count),
            _ => {
                self.faults = self.faults.saturating_add(1);
                Err(Failed)
            }
        }
    }

    fn end(&mut self) -> Result<(), Failed> {
        self.file = None;
        Ok(())
    }
}
