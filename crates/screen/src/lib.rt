// Where a view of the studio screen shows a node: on screen at two distances from the middle, or off.
#![tactic(auto)]

ghost use Rattle.std.specs.Prelude.{◌≡◌, ◌&&◌};
ghost use Rattle.std.specs.Float.{binary64};
ghost use Rattle.std.specs.Float.Ieee.{neg, le, of_int};
ghost use Rattle.refusal.specs.Number.{number_of};
ghost use Rattle.screen.specs.Screen as screen;

use refusal::Refusal;

// The middle of the screen, across and down, and how many times as large a unit is drawn.
#[derive(Clone, Copy)]
pub struct View {
    pub across: f64,
    pub down: f64,
    pub zoom: f64,
}

// Where on the screen: the distances from the middle.
#[derive(Clone, Copy)]
pub struct Seen {
    pub across: f64,
    pub down: f64,
}

// The same in plain fields: on is 1 or 0, and a node that is off has the distances 0.
#[derive(Clone, Copy)]
pub struct Values {
    pub number: u16,
    pub on: u8,
    pub across: f64,
    pub down: f64,
}

const MOST: f64 = 2097152.0;

const MOST_PLACE: u32 = 2097152;

const MOST_ACROSS: f64 = 960.0;

const MOST_DOWN: f64 = 540.0;

const LEVEL_UNITS: u32 = 64;

// 3 * 2^51: from 2^52 to 2^53 the floats are the whole numbers and no others.
const WHOLE: f64 = 6755399441055744.0;

// By `|`, as the other tests: the compiler then chooses the jumps.
fn is_zoom(z: f64) -> bool
    ensures { result ≡ screen.is_zoom z }
{
    (z == 0.125) | (z == 0.25) | (z == 0.5) | (z == 1.0) | (z == 2.0) | (z == 4.0) | (z == 8.0)
}

// Whether x is at most `most` in size; no NaN is. `abs` would branch on the sign.
fn within(x: f64, most: f64) -> bool
    ensures { result ≡ le (neg most) x && le x most }
{
    (-most <= x) & (x <= most)
}

// Whether x is a whole number of at most 2,097,152 in size: the sum keeps such a number and loses any fraction.
fn is_centre(x: f64) -> bool
    ensures { result ≡ screen.is_centre x }
{
    within(x, MOST) & (x + WHOLE - WHOLE == x)
}

#[tactic(auto, unfolding(crate::specs::Screen::in_range))]
fn in_range(place: i32) -> bool
    ensures { result ≡ screen.in_range place }
{
    place.unsigned_abs() <= MOST_PLACE
}

#[tactic(auto, unfolding(crate::specs::Screen::screen_number))]
fn judge(view: View, place: i32) -> Result<(), Refusal>
    ensures { number_of result ≡ screen.screen_number view place }
{
    if !is_zoom(view.zoom) {
        return Err(Refusal::Zoom);
    }
    if is_centre(view.across) & is_centre(view.down) & in_range(place) {
        Ok(())
    } else {
        Err(Refusal::OutOfRange)
    }
}

// Each level stands 64 units under the one above.
fn units_down(level: u16) -> f64
    ensures { result ≡ of_int binary64 (screen.units_down level) }
{
    f64::from(LEVEL_UNITS * u32::from(level))
}

// Unit place less centre, times zoom.
fn distance(unit: f64, centre: f64, zoom: f64) -> f64
    ensures { result ≡ screen.distance unit centre zoom }
{
    (unit - centre) * zoom
}

// None: off.
fn seen_at(view: View, level: u16, place: i32) -> Option<Seen>
    requires { screen.screen_number view place ≡ 0 }
    ensures { result ≡ screen.seen_at view level place }
{
    let across = distance(f64::from(place), view.across, view.zoom);
    let down = distance(units_down(level), view.down, view.zoom);
    if within(across, MOST_ACROSS) && within(down, MOST_DOWN) {
        Some(Seen { across, down })
    } else {
        None
    }
}

// Where a node is seen; None: off.
pub fn on_screen(view: View, level: u16, place: i32) -> Result<Option<Seen>, Refusal>
    ensures { screen.OnScreen view level place (screen.answer_of result) }
{
    judge(view, place)?;
    Ok(seen_at(view, level, place))
}

pub fn values_of(number: u16, seen: Option<Seen>) -> Values
    ensures { result ≡ screen.values_of number seen }
{
    match seen {
        Some(Seen { across, down }) => Values {
            number,
            on: 1,
            across,
            down,
        },
        None => Values {
            number,
            on: 0,
            across: 0.0,
            down: 0.0,
        },
    }
}
