use std::test::Fail;
use stops::blank::Blank;

// Memory is there: each reserve of a whole, and those below it.
#[test]
fn reserves(rt: HostRuntime) -> Result<(), Fail> {
    let heap = rt.alloc();
    let _ = areas::memory::Memory::reserve(heap)?;
    let _ = vans::memory::Memory::reserve(heap)?;
    let _ = commands::setup::memory::Memory::reserve(heap)?;
    let _ = offers::memory::Memory::reserve(heap)?;
    let _ = batch::workspace::Workspace::reserve(heap)?;
    Ok(())
}

// A blank list takes as many items as it has room for, with no more memory.
#[test]
fn room(rt: HostRuntime) -> Result<(), Fail> {
    let mut list = Blank::<u32, 4>::reserve(rt.alloc())?.into_list();
    let capacity = list.capacity();
    for n in 0..4 {
        list.push(n)?;
    }
    assert_eq!(rt; list.as_slice(), [0, 1, 2, 3].as_slice());
    assert_eq!(rt; list.capacity(), capacity);
    Ok(())
}
