//! Which lane leads.
ghost use Rattle.std.specs.Prelude.{◌<◌, IfSome};

use std::sync::{Condvar, Mutex, Wait};

// How many lanes sleep each in a place of their own. Those that come later share the last place.
const PLACES: usize = 8;

#[derive(Drop)]
struct Turn {
    // Whether a lane leads, or is called to.
    led: bool,
    // How many lanes sleep.
    asleep: usize,
    // The place of the lane that is called to lead.
    called: Option<usize>,
}

/// The lanes that wait to lead. The one that came last is called first: what it has touched is still near, and lanes that aren't needed
/// are left alone.
#[derive(Drop)]
pub struct Turns {
    turn: Mutex<Turn>,
    places: [Condvar; PLACES],
}

impl Turns {
    pub fn new() -> Turns {
        Turns {
            turn: Mutex::new(Turn {
                led: false,
                asleep: 0,
                called: None,
            }),
            places: [
                Condvar::new(),
                Condvar::new(),
                Condvar::new(),
                Condvar::new(),
                Condvar::new(),
                Condvar::new(),
                Condvar::new(),
                Condvar::new(),
            ],
        }
    }

    /// Where this lane is to sleep, which may be called from now on, or `None` where it leads at once.
    pub fn join<R: Wait>(&self, rt: &R) -> Option<usize>
        ensures { IfSome result (λ it. it < 8) }
    {
        let mut turn = self.turn.lock(rt);
        if !turn.led {
            turn.led = true;
            return None;
        }
        let place = place(turn.asleep);
        turn.asleep = turn.asleep.saturating_add(1);
        Some(place)
    }

    /// Sleeps there until this lane leads.
    pub fn sleep<R: Wait>(&self, rt: &R, place: usize)
        requires { place < 8 }
    {
        let turn = self.turn.lock(rt);
        let mut turn = self.places[place].wait_while(rt, turn, |it| it.called != Some(place));
        turn.called = None;
    }

    /// Lets another lane lead.
    pub fn end<R: Wait>(&self, rt: &R) {
        if let Some(place) = self.call(rt) {
            self.places[place].notify_one();
        }
    }

    // Calls a lane that sleeps, and says where.
    fn call<R: Wait>(&self, rt: &R) -> Option<usize>
        ensures { IfSome result (λ it. it < 8) }
    {
        let mut turn = self.turn.lock(rt);
        if turn.asleep == 0 {
            turn.led = false;
            return None;
        }
        turn.asleep -= 1;
        let place = place(turn.asleep);
        turn.called = Some(place);
        Some(place)
    }
}

// Where a lane sleeps while so many others do.
fn place(asleep: usize) -> usize
    ensures { result < 8 }
{
    asleep.min(PLACES - 1)
}
