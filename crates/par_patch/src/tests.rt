//! Which range is told, the bytes, and the passes of a gate, for several numbers of parts.

ghost use Rattle.std.specs.Prelude.{◌≡◌, ◌<◌, ◌≤◌, ℕ, IsTrue, IfOk, length};
ghost use Rattle.std.specs.List.{All, AllPairs};
ghost use Rattle.relocate.specs.Judged.{ArePatchable};
ghost use Rattle.relocate.specs.Value.{HasEntry, HaveEntries, target_of};
ghost use Rattle.par_patch.specs.PatchedJobs.{IsReady, EndsBefore, EndsWithin};

use super::*;
use address_layout::{Layout, Placed};
use link_base::pe_format::{REL_AMD64_ADDR32, REL_AMD64_REL32};
use relocate::{Fix, Fixups, Target, check};
use std::alloc::{AllocError, Global};
use std::sync::atomic::{AtomicU64, Ordering};
use std::test::Fail;
use std::thread::Threads;

/// How many jobs there are.
const JOBS: u32 = 10;

/// The numbers of parts.
const PARTS: [usize; 4] = [1, 2, 8, 64];

/// Pieces of eight bytes, at 0x1000 and every 16 bytes on.
fn pieces_in_a_row(alloc: Global) -> Result<Layout, AllocError>
    ensures { IfOk result (λ layout. length layout.pieces.items ≡ 10) }
{
    let mut sections = Vec::new(alloc);
    sections.push(Placed {
        rva: 0x1000,
        size: 0x100,
        raw: 0x200,
        file: 0x200,
    })?;
    let mut pieces = Vec::new(alloc);
    for k in 0..JOBS {
        pieces.push(0x1000 + 16 * k)?;
    }
    Ok(Layout {
        headers: 0x200,
        sections,
        pieces,
        image: 0x2000,
    })
}

fn has_entry(layout: &Layout, owner: &[u32], fix: &Fix) -> bool
    ensures { IsTrue result → HasEntry layout.now owner.now (target_of fix.now) }
{
    match fix.target {
        Some(Ok(Target::Piece { .. })) => false,
        _ => true,
    }
}

/// The fixups of eight bytes of zeros with one field, in the last four of them, of a symbol that stands in no piece.
fn one_field(
    alloc: Global,
    layout: &Layout,
    owner: &[u32],
    kind: u16,
    target: Target,
) -> Result<Fixups, Fail>
    ensures patchable { IfOk result (ArePatchable 8) }
    ensures entries { IfOk result (HaveEntries layout.now owner.now) }
{
    let fix = Fix {
        index: 7,
        at: 4,
        kind,
        target: Some(Ok(target)),
    };
    let fixups = check(alloc, Some(&[0; 8]), &[fix], false, false)?;
    for fix in fixups.fixes() {
        if !has_entry(layout, owner, &fix.unpacked()) {
            return Err(Fail::new("a piece"));
        }
    }
    Ok(fixups)
}

/// The module of each job, in the order of the file; the jobs of modules 1 and 0 have fields out of range.
const MODULES: [u32; 10] = [5, 4, 1, 9, 8, 0, 7, 6, 3, 2];

fn fixups_of<'a>(
    layout: &Layout,
    owner: &[u32],
    module: u32,
    good: &'a Fixups,
    wide: &'a Fixups,
) -> &'a Fixups
    requires good { ArePatchable 8 good.now × HaveEntries layout.now owner.now good.now }
    requires wide { ArePatchable 8 wide.now × HaveEntries layout.now owner.now wide.now }
    ensures patchable { ArePatchable 8 result.now }
    ensures entries { HaveEntries layout.now owner.now result.now }
{
    if module < 2 { wide } else { good }
}

/// The jobs of the pieces, eight bytes each, at 0x200 and every 16 bytes on in a file.
fn jobs_in_a_row<'a>(
    alloc: Global,
    layout: &Layout,
    owner: &[u32],
    good: &'a Fixups,
    wide: &'a Fixups,
) -> Result<Vec<Job<'a>>, AllocError>
    requires pieces { length layout.now.pieces.items ≡ 10 }
    requires good { ArePatchable 8 good.now × HaveEntries layout.now owner.now good.now }
    requires wide { ArePatchable 8 wide.now × HaveEntries layout.now owner.now wide.now }
    ensures apart { IfOk result (λ jobs. AllPairs EndsBefore jobs.items) }
    ensures within { IfOk result (λ jobs. All (EndsWithin 0x400) jobs.items) }
    ensures ready { IfOk result (λ jobs. All (IsReady layout.now owner.now) jobs.items) }
{
    let mut jobs = Vec::new(alloc);
    for k in 0..JOBS {
        let module = MODULES[k as usize];
        jobs.push(Job {
            piece: k,
            module,
            section: 1,
            start: 0x200 + 16 * k as usize,
            len: 8,
            fixups: fixups_of(layout, owner, module, good, wide),
        })?;
    }
    Ok(jobs)
}

/// Patches a file of zeros; of the modules 0 and 1 the fields hold an address of so much.
fn patch_zeros<R: Threads + Sync, G: Gate>(
    rt: &R,
    alloc: Global,
    address: u32,
    parts: usize,
    gate: &G,
) -> Result<(Vec<u8>, Result<(), JobRange>), Fail>
    requires some { 1 ≤ parts }
    requires few { parts ≤ 64 }
{
    let layout = pieces_in_a_row(alloc)?;
    let owner = [0; 10];
    let good = one_field(alloc, &layout, &owner, REL_AMD64_REL32, Target::ImageBase)?;
    let target = Target::Absolute(address);
    let wide = one_field(alloc, &layout, &owner, REL_AMD64_ADDR32, target)?;
    let jobs = jobs_in_a_row(alloc, &layout, &owner, &good, &wide)?;
    let mut image = vec![in alloc; 0u8; 0x400]?;
    let answer = patch_all(
        rt, &mut image, &jobs, 0x40_0000, &layout, &owner, parts, gate,
    );
    Ok((image, answer))
}

#[test]
fn the_least_section_is_told_by_any_parts(rt: HostRuntime) -> Result<(), Fail> {
    for parts in PARTS {
        let (_, answer) = patch_zeros(&rt, rt.alloc(), 0x8000_0000, parts, &OpenGate)?;
        let least = JobRange {
            module: 0,
            section: 1,
            index: 7,
            value: 0x8000_0000,
        };
        assert_eq!(rt; answer, Err(least), "{parts}");
    }
    Ok(())
}

#[test]
fn any_parts_leave_the_same_bytes(rt: HostRuntime) -> Result<(), Fail> {
    let (alone, _) = patch_zeros(&rt, rt.alloc(), 0x7fff_ffff, 1, &OpenGate)?;
    // REL32 in the first piece, at 0x1004, to the start of the image, and the address in the third
    assert!(rt; alone.get(0x204..0x208) == Some([0xf8, 0xef, 0xff, 0xff].as_slice()));
    assert!(rt; alone.get(0x224..0x228) == Some([0xff, 0xff, 0xff, 0x7f].as_slice()));
    for parts in PARTS {
        let (image, answer) = patch_zeros(&rt, rt.alloc(), 0x7fff_ffff, parts, &OpenGate)?;
        assert_eq!(rt; answer, Ok(()), "{parts}");
        assert!(rt; image == alone, "{parts}");
    }
    Ok(())
}

/// How many parts passed, and the sum of a bit for each.
#[derive(Drop)]
struct Passes {
    count: AtomicU64,
    bits: AtomicU64,
}

impl Gate for Passes {
    fn pass(&self, part: usize) {
        self.count.fetch_add(1, Ordering::SeqCst);
        self.bits.fetch_add(1 << (part % 64), Ordering::SeqCst);
    }
}

#[test]
fn each_part_passes_the_gate_once(rt: HostRuntime) -> Result<(), Fail> {
    for (parts, bits) in [(1, 1), (2, 3), (8, 0xff), (64, u64::MAX)] {
        let gate = Passes {
            count: AtomicU64::new(0),
            bits: AtomicU64::new(0),
        };
        let (_, answer) = patch_zeros(&rt, rt.alloc(), 0, parts, &gate)?;
        assert_eq!(rt; answer, Ok(()));
        assert_eq!(rt; gate.count.load(Ordering::SeqCst), parts as u64);
        assert_eq!(rt; gate.bits.load(Ordering::SeqCst), bits);
    }
    Ok(())
}
