// The window that slides along the variants.
ghost use Rattle.std.specs.Prelude.{◌<◌};
ghost use Rattle.var_filter.specs.Inner.FilterWindow.{WindowAt, Extended, Slid};

use crate::Scan;

// end is the first variant past the window, and ahead says how many of it are strong and still to be visited. strong_end is one
// past the last strong variant below end, and marked_end one past the last that is marked so far. They are bounds as end is and no Options: 0 says that
// there is no such variant, and `v < marked_end` needs no case of its own.
#[derive(Clone, Copy, Default)]
pub struct Window {
    pub end: usize,
    pub ahead: usize,
    pub strong_end: usize,
    pub marked_end: usize,
}

impl Window {
    // Moves end on to the first variant that is out of reach from v. At the loop's head: it is a window before the visit of v, up to m.
    pub fn extend(&mut self, scan: &Scan<'_>, v: usize)
        requires v_in { v < scan.now.case.laid.sizes.n }
        requires window_at { WindowAt scan.now v self.old }
        ensures { Extended scan.now v self.old self.new }
    {
        let variants = scan.case.with_variants();
        let reach = variants.pos0(v) + scan.density.len as usize;
        for m in self.end..scan.case.laid.sizes.n {
            if reach < variants.pos0(m) {
                return;
            }
            self.end = m + 1;
            if scan.is_strong(m) {
                self.ahead += 1;
                self.strong_end = m + 1;
            }
        }
    }

    // Visits v: where it is strong and more than density.n strong ones are ahead of it, all from v to the last of these are marked.
    pub fn slide(&mut self, scan: &Scan<'_>, v: usize)
        requires v_in { v < scan.now.case.laid.sizes.n }
        requires window_at { WindowAt scan.now v self.old }
        ensures { Slid scan.now v self.old self.new }
    {
        self.extend(scan, v);
        if !scan.is_strong(v) {
            return;
        }
        self.ahead -= 1;
        let dense = (scan.density.n as usize) < self.ahead;
        if dense {
            self.marked_end = self.strong_end;
        }
    }
}
