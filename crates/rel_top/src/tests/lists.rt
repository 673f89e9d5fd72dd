//! Copies of lists, names and boxes.

use rel_list::{Boxed, Copies, List, Name};
use std::test::Fail;

#[test]
fn copies_equal_their_sources(rt: HostRuntime) -> Result<(), Fail> {
    let alloc = rt.alloc();
    let mut numbers: List<u32> = List::new(alloc);
    for n in 3..6 {
        numbers.push(n)?;
    }
    let by_clone = numbers.copy()?;
    let by_copies = numbers.copied()?;
    assert_eq!(rt; by_clone.as_slice(), [3u32, 4, 5].as_slice());
    assert_eq!(rt; by_copies.as_slice(), [3u32, 4, 5].as_slice());
    let name = Name::new(alloc, "p")?;
    let pair = (name.copy()?, Boxed::new(alloc, 7u32)?.into_inner());
    let other = pair.copied()?;
    assert!(rt; other.0.is(&name) && other.0.is_text("p") && other.1 == 7);
    Ok(())
}
