ghost use Rattle.std.specs.Prelude.{◌≡◌, None, is_some, IfOk, OnOk};
ghost use Rattle.vrp_lex.specs.Text.{number_of};
ghost use Rattle.route_texts.specs.Words.{words_in, whole};
ghost use Rattle.route_texts.specs.Gives.{Gives};
ghost use Rattle.route_texts.specs.Vrptw.{are_numbers, is_row, stop_of, is_taken, depot_has, fleet_wanted, new_number, point_wanted, times_wanted, stop_wanted, fleet_row, depot_row, customer_row, row, vrptw_line};
ghost use Rattle.route_texts.specs.Stops.{PointFits};
ghost use Rattle.route_texts.specs.Vrptw.{FleetFits, IsNewNumber, TimesFit, IsNewStop, VrptwFits};

use crate::fault::{LineFault, RouteKind};
use crate::stops::{Point, has_number, is_zero};
use crate::vrptw_draft::{Fleet, Times, VrptwDraft};
use crate::word_reader::{fault_if, has_word, natural_in, number_in};
use crate::words::split_word;
use route_tasks::{MAX_CUSTOMERS, MAX_LOAD, MAX_NUMBER, MAX_SERVICE, MAX_TIME, MAX_VEHICLES, Stop};
use vrp_lex::{Amount, number};

/// Whether a word is a whole number.
fn is_number(word: &[u8]) -> bool
    ensures { result ≡ is_some (number_of word.now) }
{
    match number(word) {
        Amount::Not => false,
        Amount::Big => true,
        Amount::Value(_) => true,
    }
}

/// Whether all words are whole numbers.
fn are_numbers(line: &[u8]) -> bool
    ensures { result ≡ are_numbers (words_in line.now) }
{
    let mut rest = line;
    while let Some((word, behind)) = split_word(rest) {
        if !is_number(word) {
            return false;
        }
        rest = behind;
    }
    true
}

/// Whether a line is a row.
fn is_row(line: &[u8]) -> bool
    ensures { result ≡ is_row (words_in line.now) }
{
    has_word(line) && are_numbers(line)
}

/// Vehicles and capacity.
fn fleet(words: &[u8]) -> Result<(Fleet, &[u8]), LineFault>
    ensures gives { Gives (λ x. (x.0, words_in x.1.now)) result (fleet_wanted (words_in words.now)) }
    ensures fits { IfOk result (λ x. FleetFits x.0) }
{
    let (vehicles, words) = natural_in(words, 1, MAX_VEHICLES)?;
    let (capacity, words) = number_in(words, 1, MAX_LOAD)?;
    Ok((Fleet { vehicles, capacity }, words))
}

fn depot_has(number: u32, depot: &Option<Stop>) -> bool
    ensures { result ≡ depot_has number depot.now }
{
    match depot {
        None => false,
        Some(depot) => depot.number == number,
    }
}

/// Whether the depot or a customer has this number.
fn is_taken(draft: &VrptwDraft, number: u32) -> bool
    ensures { result ≡ is_taken draft.now number }
{
    depot_has(number, &draft.depot) || has_number(number, draft.stops.as_slice())
}

/// A number that no stop has yet.
fn new_number<'a>(draft: &VrptwDraft, words: &'a [u8]) -> Result<(u32, &'a [u8]), LineFault>
    ensures gives { Gives (λ x. (x.0, words_in x.1.now)) result
        (new_number (is_taken draft.now) (words_in words.now)) }
    ensures fits { IfOk result (λ x. IsNewNumber draft.now x.0) }
{
    let (number, words) = natural_in(words, 0, MAX_NUMBER)?;
    fault_if(RouteKind::Repeated, is_taken(draft, number))?;
    Ok((number, words))
}

fn point(words: &[u8]) -> Result<(Point, &[u8]), LineFault>
    ensures gives { Gives (λ x. (x.0, words_in x.1.now)) result (point_wanted (words_in words.now)) }
    ensures fits { IfOk result (λ x. PointFits x.0) }
{
    let (x, words) = number_in(words, -100_000, 100_000)?;
    let (y, words) = number_in(words, -100_000, 100_000)?;
    Ok((Point { x, y }, words))
}

/// Ready, due and service.
fn times(words: &[u8]) -> Result<(Times, &[u8]), LineFault>
    ensures gives { Gives (λ x. (x.0, words_in x.1.now)) result (times_wanted (words_in words.now)) }
    ensures fits { IfOk result (λ x. TimesFit x.0) }
{
    let (ready, words) = number_in(words, 0, MAX_TIME)?;
    let (due, words) = number_in(words, ready, MAX_TIME)?;
    let (service, words) = number_in(words, 0, MAX_SERVICE)?;
    let times = Times {
        ready,
        due,
        service,
    };
    Ok((times, words))
}

fn stop_of(number: u32, point: Point, demand: i32, times: Times) -> Stop
    ensures { result ≡ stop_of number point demand times }
{
    Stop {
        number,
        x: point.x,
        y: point.y,
        demand,
        ready: times.ready,
        due: times.due,
        service: times.service,
    }
}

/// Number, place, demand and times of a stop.
fn stop<'a>(draft: &VrptwDraft, words: &'a [u8]) -> Result<(Stop, &'a [u8]), LineFault>
    ensures gives { Gives (λ x. (x.0, words_in x.1.now)) result
        (stop_wanted (is_taken draft.now) (words_in words.now)) }
    ensures fits { IfOk result (λ x. IsNewStop draft.now x.0) }
{
    let (number, words) = new_number(draft, words)?;
    let (point, words) = point(words)?;
    let (demand, words) = number_in(words, 0, MAX_LOAD)?;
    let (times, words) = times(words)?;
    Ok((stop_of(number, point, demand, times), words))
}

/// A stop that the whole line says.
fn whole_stop(draft: &VrptwDraft, line: &[u8]) -> Result<Stop, LineFault>
    ensures gives { Gives (λ x. x) result (whole (stop_wanted (is_taken draft.now)) (words_in line.now)) }
    ensures fits { IfOk result (IsNewStop draft.now) }
{
    let (stop, words) = stop(draft, line)?;
    fault_if(RouteKind::Word, has_word(words))?;
    Ok(stop)
}

fn fleet_row(draft: &mut VrptwDraft, line: &[u8]) -> Result<(), LineFault>
    requires { VrptwFits draft.old }
    ensures gives { Gives (λ _. draft.new) result (fleet_row draft.old (words_in line.now)) }
    ensures fits { OnOk result (VrptwFits draft.new) }
{
    let (fleet, words) = fleet(line)?;
    fault_if(RouteKind::Word, has_word(words))?;
    draft.fleet = Some(fleet);
    Ok(())
}

fn depot_row(draft: &mut VrptwDraft, line: &[u8]) -> Result<(), LineFault>
    requires none { draft.old.depot ≡ None }
    requires fits { VrptwFits draft.old }
    ensures gives { Gives (λ _. draft.new) result (depot_row draft.old (words_in line.now)) }
    ensures fits { OnOk result (VrptwFits draft.new) }
{
    let depot = whole_stop(draft, line)?;
    fault_if(RouteKind::Depot, !is_zero(depot.demand))?;
    draft.depot = Some(depot);
    Ok(())
}

fn customer_row(draft: &mut VrptwDraft, line: &[u8]) -> Result<(), LineFault>
    requires { VrptwFits draft.old }
    ensures gives { Gives (λ _. draft.new) result (customer_row draft.old (words_in line.now)) }
    ensures fits { OnOk result (VrptwFits draft.new) }
{
    fault_if(
        RouteKind::TooMany,
        draft.stops.len() == MAX_CUSTOMERS as usize,
    )?;
    let stop = whole_stop(draft, line)?;
    draft.stops.push(stop)?;
    Ok(())
}

/// A row.
fn take_row(draft: &mut VrptwDraft, line: &[u8]) -> Result<(), LineFault>
    requires { VrptwFits draft.old }
    ensures gives { Gives (λ _. draft.new) result (row draft.old draft.old.fleet (words_in line.now)) }
    ensures fits { OnOk result (VrptwFits draft.new) }
{
    if draft.fleet.is_none() {
        return fleet_row(draft, line);
    }
    if draft.depot.is_none() {
        return depot_row(draft, line);
    }
    customer_row(draft, line)
}

/// A line.
pub fn take_line(draft: &mut VrptwDraft, line: &[u8]) -> Result<(), LineFault>
    requires { VrptwFits draft.old }
    ensures gives { Gives (λ _. draft.new) result (vrptw_line draft.old line.now) }
    ensures fits { OnOk result (VrptwFits draft.new) }
{
    if is_row(line) {
        return take_row(draft, line);
    }
    Ok(())
}
