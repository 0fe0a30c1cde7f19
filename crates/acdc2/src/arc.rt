// A constraint seen from one of its ends.
use catalog::Catalog;

#[derive(Clone, Copy)]
pub(crate) struct Arc {
    pub constraint: usize,
    pub near: usize,
    pub far: usize,
    // is the near variable the constraint's first end?
    pub forward: bool,
}

impl Arc {
    // The arcs of the constraint `p` with these ends, the first end's before the second's.
    pub(crate) fn both(p: usize, (a, b): (usize, usize)) -> [Arc; 2] {
        let there = Arc {
            constraint: p,
            near: a,
            far: b,
            forward: true,
        };
        let back = Arc {
            near: b,
            far: a,
            forward: false,
            ..there
        };
        [there, back]
    }

    // The arc of the constraint `p` whose far variable is `u`, if `u` is one of its ends.
    pub(crate) fn toward<C: Catalog>(catalog: &C, p: usize, u: usize) -> Option<Arc> {
        let [there, back] = Arc::both(p, catalog.ends(p)?);
        if there.far == u {
            Some(there)
        } else if back.far == u {
            Some(back)
        } else {
            None
        }
    }

    // May `d` of the near variable stand beside `e` of the far one?
    fn allows<C: Catalog>(self, catalog: &C, d: usize, e: usize) -> bool {
        if self.forward {
            catalog.allows(self.constraint, d, e)
        } else {
            catalog.allows(self.constraint, e, d)
        }
    }

    // Has `d` of the near variable a support among these values of the far one?
    pub(crate) fn supported<C: Catalog>(self, catalog: &C, d: usize, far: u64) -> bool {
        (0..64).any(|e| bits::has(far, e) && self.allows(catalog, d, e))
    }
}
