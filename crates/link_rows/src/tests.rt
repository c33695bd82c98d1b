//! The most modules.

use crate::run_without_failures;
use std::test::Fail;
use std::thread::Threads;

/// An object with the code of `main`: three bytes in `.text`.
const PLAIN: &[u8] =
    b"\x64\x86\x01\x00\x00\x00\x00\x00\x3f\x00\x00\x00\x01\x00\x00\x00\x00\x00\x00\x00\
    .text\x00\x00\x00\x00\x00\x00\x00\x00\x00\x00\x00\x03\x00\x00\x00\x3c\x00\x00\x00\
    \x00\x00\x00\x00\x00\x00\x00\x00\x00\x00\x00\x00\x20\x00\x50\x60\
    \x31\xc0\xc3\
    main\x00\x00\x00\x00\x00\x00\x00\x00\x01\x00\x20\x00\x02\x00\
    \x04\x00\x00\x00";

/// What a link of the small object prints, named so many times.
fn line_of_modules<R: Threads + AllocGlobal + Sync>(rt: &R, count: usize) -> Result<Vec<u8>, Fail> {
    let alloc = rt.alloc();
    let mut words = Vec::new(alloc);
    words.push("link")?;
    for _ in 0..count {
        words.push("a.obj")?;
    }
    words.push("/ENTRY:main")?;
    words.push("/OUT:a.exe")?;
    let ended = run_without_failures(rt, alloc, &[("a.obj", PLAIN)], &words)?;
    Ok(ended.out.taken().to_vec(alloc)?)
}

#[test]
fn as_many_as_65534_modules_are_opened(rt: HostRuntime) -> Result<(), Fail> {
    let line = line_of_modules(&rt, 65_534)?;
    assert_eq!(rt;
        line.as_slice(),
        b"fault 11 Duplicate main 0 1\n".as_slice()
    );
    Ok(())
}

#[test]
fn one_module_more_is_refused(rt: HostRuntime) -> Result<(), Fail> {
    let line = line_of_modules(&rt, 65_535)?;
    assert_eq!(rt; line.as_slice(), b"fault 4 InputLimit 65535\n".as_slice());
    Ok(())
}
