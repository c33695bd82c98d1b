//! Eight files by several numbers of parts, and parts that wait for one another.

ghost use Rattle.std.specs.Prelude.{◌≤◌, length, All, IfOk};

use crate::{Job, open_all};
use coff_object::ObjError;
use link_base::{Name, ObjFault};
use link_files::{Gate, OpenGate};
use module_view::{Module, ModuleError, Origin};
use std::alloc::{AllocError, Global};
use std::sync::atomic::{AtomicBool, Ordering};
use std::test::Fail;

/// An object with the code of `main`: three bytes in `.text`.
const PLAIN: &[u8] =
    b"\x64\x86\x01\x00\x00\x00\x00\x00\x3f\x00\x00\x00\x01\x00\x00\x00\x00\x00\x00\x00\
    .text\x00\x00\x00\x00\x00\x00\x00\x00\x00\x00\x00\x03\x00\x00\x00\x3c\x00\x00\x00\
    \x00\x00\x00\x00\x00\x00\x00\x00\x00\x00\x00\x00\x20\x00\x50\x60\
    \x31\xc0\xc3\
    main\x00\x00\x00\x00\x00\x00\x00\x00\x01\x00\x20\x00\x02\x00\
    \x04\x00\x00\x00";

/// The same, cut short in the record of its symbol.
const CUT: &[u8] =
    b"\x64\x86\x01\x00\x00\x00\x00\x00\x3f\x00\x00\x00\x01\x00\x00\x00\x00\x00\x00\x00\
    .text\x00\x00\x00\x00\x00\x00\x00\x00\x00\x00\x00\x03\x00\x00\x00\x3c\x00\x00\x00\
    \x00\x00\x00\x00\x00\x00\x00\x00\x00\x00\x00\x00\x20\x00\x50\x60\
    \x31\xc0\xc3\
    main\x00\x00\x00\x00";

/// Two of eight files do not open: the third is empty, and the fifth is cut short.
const DAMAGED: [(&[u8], &[u8]); 8] = [
    (b"a.obj", PLAIN),
    (b"b.obj", PLAIN),
    (b"c.obj", b""),
    (b"d.obj", PLAIN),
    (b"e.obj", CUT),
    (b"f.obj", PLAIN),
    (b"g.obj", PLAIN),
    (b"h.obj", PLAIN),
];

const SOUND: [(&[u8], &[u8]); 8] = [
    (b"a.obj", PLAIN),
    (b"b.obj", PLAIN),
    (b"c.obj", PLAIN),
    (b"d.obj", PLAIN),
    (b"e.obj", PLAIN),
    (b"f.obj", PLAIN),
    (b"g.obj", PLAIN),
    (b"h.obj", PLAIN),
];

/// The jobs of some files of at most 100 bytes, by their names and bytes.
fn jobs_of(
    alloc: Global,
    files: &[(&'static [u8], &'static [u8])],
) -> Result<Vec<Job<'static>>, AllocError>
    ensures { IfOk result (λ jobs. All (λ job. length job.bytes.now ≤ 100) jobs.items) }
{
    let mut jobs = Vec::new(alloc);
    for (name, bytes) in files {
        jobs.push(Job {
            origin: Origin {
                file: Name::of(name),
                member: None,
            },
            bytes: &bytes[..bytes.len().min(100)],
        })?;
    }
    Ok(jobs)
}

/// Whether the answer is a module of this file that defines one name.
fn is_module(answer: &Result<Module<'_>, ModuleError>, file: &'static [u8]) -> bool {
    match answer {
        Ok(module) => module.origin().file == Name::of(file) && module.definitions().len() == 1,
        Err(_) => false,
    }
}

/// The fault of the object, where the answer is one.
fn fault_of(answer: &Result<Module<'_>, ModuleError>) -> Option<ObjError> {
    match answer {
        Err(ModuleError::Object(error)) => Some(*error),
        _ => None,
    }
}

#[test]
fn any_number_of_parts_gives_the_same_answers(rt: HostRuntime) -> Result<(), Fail> {
    let jobs = jobs_of(rt.alloc(), &DAMAGED)?;
    let empty = Some(ObjError {
        kind: ObjFault::Truncated,
        index: 0,
    });
    let cut = Some(ObjError {
        kind: ObjFault::SymbolRange,
        index: 0,
    });
    let wanted = [None, None, empty, None, cut, None, None, None];
    for parts in [1, 8, 64] {
        let answers = open_all(&rt, rt.alloc(), &jobs, parts, &OpenGate)?;
        assert_eq!(rt; answers.len(), 8);
        for k in 0..8 {
            let fault = wanted[k];
            assert_eq!(rt; fault_of(&answers[k]), fault);
            assert_eq!(rt; is_module(&answers[k], DAMAGED[k].0), fault.is_none());
        }
    }
    Ok(())
}

/// A gate at which the first and the last of eight parts wait for one another.
#[derive(Drop)]
struct Meeting {
    first: AtomicBool,
    last: AtomicBool,
    /// One of both has waited in vain.
    missed: AtomicBool,
}

impl Meeting {
    /// Raises a flag, and waits for another one for at most 100,000,000 turns.
    fn meet(&self, mine: &AtomicBool, other: &AtomicBool) {
        mine.store(true, Ordering::SeqCst);
        for _ in 0..100_000_000u64 {
            if other.load(Ordering::SeqCst) {
                return;
            }
        }
        self.missed.store(true, Ordering::SeqCst);
    }
}

impl Gate for Meeting {
    fn pass(&self, part: usize) {
        match part {
            64 => self.meet(&self.first, &self.last),
            71 => self.meet(&self.last, &self.first),
            _ => (),
        }
    }
}

#[test]
fn the_first_and_the_last_part_are_open_at_once(rt: HostRuntime) -> Result<(), Fail> {
    let jobs = jobs_of(rt.alloc(), &SOUND)?;
    let gate = Meeting {
        first: AtomicBool::new(false),
        last: AtomicBool::new(false),
        missed: AtomicBool::new(false),
    };
    let answers = open_all(&rt, rt.alloc(), &jobs, 8, &gate)?;
    assert_eq!(rt; answers.len(), 8);
    assert!(rt; gate.first.load(Ordering::SeqCst));
    assert!(rt; gate.last.load(Ordering::SeqCst));
    assert!(rt; !gate.missed.load(Ordering::SeqCst));
    Ok(())
}
