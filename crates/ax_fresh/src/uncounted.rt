//! The tree of a document, for a caller that counts no reads.
ghost use Rattle.std.specs.Prelude.{◌≡◌, ◌<◌, IfOk};
ghost use Rattle.ax_record.specs.Records.{tree};

use crate::build;
use ax_base::{NoMemory, Steps};
use ax_dom::Dom;
use ax_record::FreshTree;
use std::alloc::Global;
use std::marker::Brand;
use std::sync::ledger::{Blank, Ledger};

/// The tree of a document, built whole, as `build` does on a count of its own. The only error is want of memory.
pub fn tree_of(alloc: Global, document: &Dom) -> Result<FreshTree, NoMemory>
    ensures { IfOk result (λ t. t ≡ tree document.now) }
{
    counted_tree::<Brand>(alloc, document, Blank::new(1))
}

/// The tree, where the reads of the document are counted on a ledger that this blank opens.
fn counted_tree<L: Ledger>(
    alloc: Global,
    document: &Dom,
    blank: Blank,
) -> Result<FreshTree, NoMemory>
    requires name { blank.name ≡ L.name }
    requires parts { blank.parts ≡ L.parts }
    requires some { 0 < blank.parts }
    ensures { IfOk result (λ t. t ≡ tree document.now) }
{
    let (book, share) = blank.open::<L>();
    let mut steps = Steps::new(book, share);
    build(alloc, document, &mut steps)
}
