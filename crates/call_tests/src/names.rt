//! What no clause says: that no call reports want of memory while there is enough.
//! What names are is compared on stories.
use ax_names::Piece;
use std::test::Fail;

#[test]
fn two_texts_have_one_name(rt: HostRuntime) -> Result<(), Fail> {
    let alloc = rt.alloc();
    let mut piece = Piece::of(alloc, " tea")?;
    let behind = Piece::of(alloc, "pot ")?;
    piece.append(&behind)?;
    assert!(rt; piece.into_name().is("teapot"));
    Ok(())
}
