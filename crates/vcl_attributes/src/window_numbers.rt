// The numbers of a probe's window.
ghost use Rattle.std.specs.Prelude.{◌≡◌, ◌-◌, option_map};
ghost use Rattle.vcl_attributes.specs.WindowNumbers.{all_fitting, fitting, is_window_name, misfit_place, number_of, numbers_in, numbers_of, small, usual_numbers, window_name, window_place, with_initial};

use crate::readers::first_integer;
use vcl_tree::Attribute;

/// The most results that a window has.
const LONGEST_WINDOW: i64 = 64;

/// How many of the latest results of a probe count, how many of them are good where the backend is well, and how many good ones
/// it begins with.
#[derive(Clone, Copy)]
pub struct WindowNumbers {
    pub window: u32,
    pub threshold: u32,
    pub initial: u32,
}

fn small(number: i64) -> Option<u32>
    ensures { result ≡ small number }
{
    if (0..=LONGEST_WINDOW).contains(&number) {
        Some(number as u32)
    } else {
        None
    }
}

fn number_of(usual: Option<u32>, said: Option<i64>) -> Option<u32>
    ensures { result ≡ number_of usual said }
{
    match said {
        Some(number) => small(number),
        None => usual,
    }
}

fn fitting(window: u32, threshold: u32, initial: u32) -> Option<WindowNumbers>
    ensures { result ≡ fitting window threshold initial }
{
    if 1 <= window && threshold <= window && initial <= window {
        Some(WindowNumbers {
            window,
            threshold,
            initial,
        })
    } else {
        None
    }
}

fn all_fitting(
    window: Option<u32>,
    threshold: Option<u32>,
    initial: Option<u32>,
) -> Option<WindowNumbers>
    ensures { result ≡ all_fitting window threshold initial }
{
    match (window, threshold, initial) {
        (Some(window), Some(threshold), Some(initial)) => fitting(window, threshold, initial),
        _ => None,
    }
}

// One less, but at least 0.
fn one_less(number: Option<u32>) -> Option<u32>
    ensures { result ≡ option_map (λ n. n - 1) number }
{
    match number {
        Some(number) => Some(number.saturating_sub(1)),
        None => None,
    }
}

fn with_initial(
    window: Option<u32>,
    threshold: Option<u32>,
    initial: Option<i64>,
) -> Option<WindowNumbers>
    ensures { result ≡ with_initial window threshold initial }
{
    all_fitting(window, threshold, number_of(one_less(threshold), initial))
}

// The numbers of a probe with these attributes, where they fit.
fn numbers_in(attributes: &[Attribute]) -> Option<WindowNumbers>
    ensures { result ≡ numbers_in attributes.now }
{
    let window = number_of(Some(8), first_integer(b"window", attributes));
    let threshold = number_of(Some(3), first_integer(b"threshold", attributes));
    with_initial(window, threshold, first_integer(b"initial", attributes))
}

fn is_window_name(name: &[u8]) -> bool
    ensures { result ≡ is_window_name name.now }
{
    name == b"window".as_slice() || name == b"threshold".as_slice() || name == b"initial".as_slice()
}

fn window_name(attribute: &Attribute) -> Option<u32>
    ensures { result ≡ window_name attribute.now }
{
    if is_window_name(attribute.name.text.bytes()) {
        Some(attribute.name.place)
    } else {
        None
    }
}

// The place of the first name of a window's number.
fn window_place(attributes: &[Attribute]) -> Option<u32>
    ensures { result ≡ window_place attributes.now }
{
    for attribute in attributes {
        if let Some(place) = window_name(attribute) {
            return Some(place);
        }
    }
    None
}

/// Where the numbers of a probe's window don't fit: the first of the names that say them.
pub fn misfit_place(attributes: &[Attribute]) -> Option<u32>
    ensures { result ≡ misfit_place attributes.now }
{
    match numbers_in(attributes) {
        Some(_) => None,
        None => window_place(attributes),
    }
}

/// The numbers of a probe's window: its own where they fit, else the usual ones.
pub fn numbers_of(attributes: &[Attribute]) -> WindowNumbers
    ensures { result ≡ numbers_of attributes.now }
{
    let usual = WindowNumbers {
        window: 8,
        threshold: 3,
        initial: 2,
    };
    numbers_in(attributes).unwrap_or(usual)
}
