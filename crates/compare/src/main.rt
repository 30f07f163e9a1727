// Reads a kind of length and routes, and prints each route's length and the routes from first to last.
#![tactic(auto)]

use columns::{Columns, column_text};
use failure::Failure;
use measure::{Reversed, Sum, Then};
use routes::{
    Kind, Route, equal_line, equally_long, place_line, rank, read_leg, route_length, route_line,
};
use std::alloc::{AllocError, Global};
use std::fmt;
use std::io::Read;

// Why a route has no length.
#[derive(Drop)]
enum NoLength<'a> {
    NoLeg(&'a str),
    TooLong,
}

impl fmt::Display for NoLength<'_> {
    fn fmt<W: fmt::Write>(&self, f: &mut fmt::Formatter<W>) -> fmt::Result {
        match self {
            NoLength::NoLeg(word) => write!(f, "'{word}' is no length of this kind"),
            NoLength::TooLong => write!(f, "its legs are too long to be joined"),
        }
    }
}

// The length of a route from its line: the first word that is no leg ends it. Two results, since one is printed and the other ends
// the run.
fn read_route<M: Columns>(heap: Global, line: &str) -> Result<Result<M, NoLength<'_>>, AllocError> {
    let mut legs = Vec::new(heap);
    for word in line.split_whitespace() {
        let Some(leg) = read_leg(heap, word)? else {
            return Ok(Err(NoLength::NoLeg(word)));
        };
        legs.push(leg)?;
    }
    Ok(route_length(&legs).ok_or(NoLength::TooLong))
}

// Prints a line for each route and answers those that have a length.
fn measured<M: Columns>(rt: &HostRuntime, text: &str) -> Result<Vec<Route<M>>, Failure> {
    let heap = rt.alloc();
    let mut routes = Vec::new(heap);
    let lines = text.lines().skip(1).filter(|line| !line.trim().is_empty());
    for (number, line) in (1usize..).zip(lines) {
        match read_route(heap, line)? {
            Ok(length) => {
                let shown = column_text(heap, &length)?;
                rt.println(route_line(heap, number, &shown)?)?;
                routes.push(Route { number, length })?;
            }
            Err(why) => println!(rt; "route {number}: {why}")?,
        }
    }
    Ok(routes)
}

// Prints the routes from first to last; equally long ones share a place.
fn print_ranking<M: Columns>(rt: &HostRuntime, routes: &[Route<M>]) -> Result<(), Failure> {
    let heap = rt.alloc();
    rt.println("from first to last:")?;
    let mut place = 0;
    // by number, since places are numbers and a route is compared with the one before it
    for (i, route) in routes.iter().enumerate() {
        let shown = column_text(heap, &route.length)?;
        if i > 0 && equally_long(&routes[i - 1], route) {
            rt.println(equal_line(heap, place, route.number, &shown)?)?;
        } else {
            place = i + 1;
            rt.println(place_line(heap, place, route.number, &shown)?)?;
        }
    }
    Ok(())
}

fn compare<M: Columns>(rt: &HostRuntime, text: &str) -> Result<(), Failure> {
    let mut routes = measured::<M>(rt, text)?;
    rank(&mut routes);
    print_ranking(rt, &routes)
}

fn main(rt: HostRuntime) -> Result<(), Failure> {
    let mut text = String::new(rt.alloc());
    rt.stdin().read_to_string(&mut text)?;
    let kind = text.lines().next().unwrap_or("").trim();
    // each arm names a type of lengths, which no value can stand for
    match kind.parse() {
        Ok(Kind::Sum) => compare::<Sum>(&rt, &text),
        Ok(Kind::ReversedSum) => compare::<Reversed<Sum>>(&rt, &text),
        Ok(Kind::SumThenSum) => compare::<Then<Sum, Sum>>(&rt, &text),
        Ok(Kind::SumThenReversed) => compare::<Then<Sum, Reversed<Sum>>>(&rt, &text),
        Err(_) => {
            println!(rt;
                "'{kind}' is no kind: sum, reversed, money then minutes, money then reversed"
            )?;
            Ok(())
        }
    }
}
