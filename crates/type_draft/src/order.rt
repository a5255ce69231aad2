//! An order of types in which each comes after those that it leads to, where there is one. Nothing
//! but speed rests on it.
use crate::leads::leads_of;
use snap_core::TypeNo;
use std::alloc::{AllocError, Global};
use type_table::Shape;

/// Types as a search leaves them, deepest first, and the number of each one's component: of the types
/// that lead to one another. No type leads to one of a higher component.
#[derive(Debug, Drop)]
pub struct Order {
    pub left: Vec<TypeNo>,
    pub components: Vec<usize>,
}

/// How far the search has come with a type. One that is open has its place among those open.
#[derive(Clone, Copy, Debug)]
enum Progress {
    Unseen,
    Open(usize),
    Left,
}

/// A type on the search's path: its place among those open, the lowest such place that was met from
/// it, and which of its leads comes next.
#[derive(Clone, Copy, Debug)]
struct Visit {
    t: TypeNo,
    place: usize,
    lowest: usize,
    next: usize,
}

/// A depth-first search through the leads of all types.
#[derive(Debug, Drop)]
struct Search {
    progress: Vec<Progress>,
    path: Vec<Visit>,
    pending: Vec<TypeNo>,
    order: Order,
}

/// The order of the types with these shapes.
pub fn order_of(alloc: Global, shapes: &[Shape]) -> Result<Order, AllocError> {
    let mut search = Search {
        progress: vec![in alloc; Progress::Unseen; shapes.len()]?,
        path: Vec::new(alloc),
        pending: Vec::new(alloc),
        order: Order {
            left: Vec::new(alloc),
            components: vec![in alloc; 0; shapes.len()]?,
        },
    };
    let most_steps = count_steps(shapes);
    for root in 0..shapes.len() {
        search.start(TypeNo(root))?;
        for _step in 0..most_steps {
            if !search.step(shapes)? {
                break;
            }
        }
    }
    Ok(search.order)
}

/// As many steps as the search can take: one for each lead, and one to leave each type.
fn count_steps(shapes: &[Shape]) -> usize {
    let mut steps = shapes.len();
    for shape in shapes {
        steps = steps.saturating_add(leads_of(shape).len());
    }
    steps
}

impl Search {
    /// Goes to a type, unless it was seen.
    fn start(&mut self, t: TypeNo) -> Result<(), AllocError> {
        match self.progress.get(t.0) {
            Some(Progress::Unseen) => self.enter(t),
            _ => Ok(()),
        }
    }

    fn enter(&mut self, t: TypeNo) -> Result<(), AllocError> {
        let place = self.pending.len();
        note(&mut self.progress, t, Progress::Open(place));
        self.pending.push(t)?;
        self.path.push(Visit {
            t,
            place,
            lowest: place,
            next: 0,
        })?;
        Ok(())
    }

    /// Goes one lead on from the last type of the path, or leaves it; whether there was one.
    fn step(&mut self, shapes: &[Shape]) -> Result<bool, AllocError> {
        match self.path.pop() {
            Some(visit) => {
                self.go_on(shapes, visit)?;
                Ok(true)
            }
            None => Ok(false),
        }
    }

    fn go_on(&mut self, shapes: &[Shape], visit: Visit) -> Result<(), AllocError> {
        match leads_in(shapes, visit.t).get(visit.next) {
            Some(u) => self.meet(visit, *u),
            None => self.leave(visit),
        }
    }

    fn meet(&mut self, visit: Visit, u: TypeNo) -> Result<(), AllocError> {
        let on = Visit {
            next: visit.next.saturating_add(1),
            ..visit
        };
        match self.progress.get(u.0) {
            Some(Progress::Open(place)) => {
                let lowest = on.lowest.min(*place);
                self.path.push(Visit { lowest, ..on })?;
                Ok(())
            }
            _ => {
                self.path.push(on)?;
                self.start(u)
            }
        }
    }

    /// Leaves a type: with all that are open from it on, where it leads to none before it.
    fn leave(&mut self, visit: Visit) -> Result<(), AllocError> {
        if visit.lowest == visit.place {
            return self.close(visit.place);
        }
        if let Some(before) = self.path.pop() {
            let lowest = before.lowest.min(visit.lowest);
            self.path.push(Visit { lowest, ..before })?;
        }
        Ok(())
    }

    /// Closes the types that are open from this place on. They lead to one another.
    fn close(&mut self, place: usize) -> Result<(), AllocError> {
        let component = self.order.left.len();
        while self.pending.len() > place {
            if let Some(t) = self.pending.pop() {
                note(&mut self.progress, t, Progress::Left);
                self.order.leave(t, component)?;
            }
        }
        Ok(())
    }
}

impl Order {
    fn leave(&mut self, t: TypeNo, component: usize) -> Result<(), AllocError> {
        if let Some(number) = self.components.get_mut(t.0) {
            *number = component;
        }
        self.left.push(t)?;
        Ok(())
    }
}

fn note(progress: &mut [Progress], t: TypeNo, now: Progress) {
    if let Some(noted) = progress.get_mut(t.0) {
        *noted = now;
    }
}

fn leads_in(shapes: &[Shape], t: TypeNo) -> &[TypeNo] {
    match shapes.get(t.0) {
        Some(shape) => leads_of(shape),
        None => &[],
    }
}
