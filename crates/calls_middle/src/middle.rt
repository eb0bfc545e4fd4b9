//! The one-step middle machine: an Act runs the silent lines up to the one that has the event, and
//! that one.

use crate::halt::Halt;
use crate::objects::Objects;
use crate::processor::{Processor, Setting};
use ax_map::{FRAME_ROOM, FRAMES_START};
use ax_pieces::block_label;
use ax_words::{SourceEvent, SourceStatus};

/// A run of middle code: the numbers of its globals, its outputs, and its processors.
#[derive(Drop)]
pub(crate) struct Middle<'a> {
    pub setting: Setting<'a>,
    pub objects: Objects,
    pub outputs: Vec<(u8, u64)>,
    pub processors: Vec<Processor>,
}

/// Processors at the first blocks of their entries, with frames behind the globals.
fn processors(setting: &Setting, entries: &[u32]) -> Result<Vec<Processor>, Halt> {
    let mut made = Vec::new(setting.alloc);
    let mut base = FRAMES_START;
    for entry in entries {
        if *entry >= 64 {
            return Err(Halt::Stuck);
        }
        let place = setting.behind(block_label(*entry, 0));
        made.push(Processor::new(setting.alloc, place, base)?)?;
        base = base.wrapping_add(FRAME_ROOM);
    }
    Ok(made)
}

impl<'a> Middle<'a> {
    /// A machine before its first event, over these objects.
    pub(crate) fn start(
        setting: Setting<'a>,
        objects: Objects,
        entries: &[u32],
    ) -> Result<Middle<'a>, Halt> {
        let processors = processors(&setting, entries)?;
        Ok(Middle {
            setting,
            objects,
            outputs: Vec::new(setting.alloc),
            processors,
        })
    }

    /// One event.
    pub(crate) fn step(&mut self, event: SourceEvent) -> Result<(), Halt> {
        let (SourceEvent::Act(p)
        | SourceEvent::Look(p)
        | SourceEvent::Miss(p)
        | SourceEvent::Drain(p)) = event;
        if usize::from(p) >= self.processors.len() {
            return Err(Halt::Stuck);
        }
        let processor = &mut self.processors[usize::from(p)];
        if matches!(event, SourceEvent::Drain(_)) {
            return processor.drain(&mut self.objects);
        }
        if !matches!(processor.status, SourceStatus::Running) {
            return Ok(());
        }
        processor.advance(&self.setting)?;
        match event {
            SourceEvent::Look(_) => processor.look(&self.setting, &self.objects),
            SourceEvent::Miss(_) => processor.miss(&self.setting),
            _ => {
                if let Some(number) = processor.act(&self.setting, &mut self.objects)? {
                    self.outputs.push((p, number))?;
                }
                Ok(())
            }
        }
    }
}
