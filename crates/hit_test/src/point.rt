//! The object at a point.
ghost use Rattle.std.specs.Prelude.{◌≡◌, Bool, IfOk};
ghost use Rattle.ax_base.specs.Rects.{holds_point};
ghost use Rattle.ax_record.specs.declared.record.Record.{Record};
ghost use Rattle.hit_test.specs.Hits.{hit};

use ax_base::{ObjId, contains_point};
use ax_record::{Record, TreeView, Wanted, last};
use std::convert::Infallible;

/// The objects whose frames hold a point.
#[derive(Drop)]
struct AtPoint {
    x: i32,
    y: i32,
}

impl Wanted for AtPoint {
    type Error = Infallible;

    ghost wants = { λ p r. holds_point r.frame p.x p.y };

    fn is_wanted(&self, object: &Record) -> Result<bool, Infallible> {
        Ok(contains_point(object.frame, self.x, self.y))
    }
}

/// The last object in preorder whose frame holds a point, in the page's own units, or `None` exactly where no frame does.
/// The left and top edges belong to a frame, the right and bottom edges do not. It looks at each object at most once, from
/// the last one backward, and takes no memory.
pub fn hit<T: TreeView>(t: &T, x: i32, y: i32) -> Option<ObjId>
    ensures { result ≡ hit (T.tree t.now) x y }
{
    let point = AtPoint { x, y };
    match last(t, &point) {
        Ok(found) => found,
        Err(never) => match never {},
    }
}
