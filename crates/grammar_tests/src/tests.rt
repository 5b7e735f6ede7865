//! What the parser answers, against answers by hand.

use crate::items::{Act, Class, Items, Rule};
use crate::sentence::{Event, Refusal, parse};
use grammar::{ParseFault, Parser};
use std::alloc::Global;
use std::test::Fail;

const WORD: u8 = Class::Word as u8;

const COLON: u8 = Class::Colon as u8;

const COMMA: u8 = Class::Comma as u8;

const OPEN: u8 = Class::Open as u8;

const CLOSE: u8 = Class::Close as u8;

const BEGIN: Event = Event::Do(Act::Begin as u8);

const END: Event = Event::Do(Act::End as u8);

const A_WORD: Event = Event::Do(Act::Word as u8);

const A_WEIGHT: Event = Event::Do(Act::Weight as u8);

fn is_parsed(alloc: Global, classes: &[u8], wanted: &[Event]) -> bool {
    let mut events = Vec::new(alloc);
    let told = parse(alloc, classes, &mut events);
    told.is_ok() && events.as_slice() == wanted
}

fn is_wrong_at(alloc: Global, classes: &[u8], place: usize) -> bool {
    let mut events = Vec::new(alloc);
    let told = parse(alloc, classes, &mut events);
    told == Err(Refusal {
        fault: ParseFault::Unexpected,
        place,
    })
}

/// Whether a parser that was fed a token takes one of those next.
fn takes_behind(alloc: Global, class: u8, asked: &[u8]) -> Result<bool, ParseFault> {
    let mut parser = Parser::<Items>::new(alloc, Rule::Item as u16)?;
    parser.feed(class, &mut Vec::new(alloc))?;
    Ok(parser.takes_one_of(alloc, asked)?)
}

#[test]
fn acts_stand_in_front_of_their_tokens(rt: HostRuntime) -> Result<(), Fail> {
    let alloc = rt.alloc();
    assert!(rt; is_parsed(alloc, &[WORD], &[A_WORD, Event::Take(WORD)]));
    assert!(rt;
        is_parsed(
            alloc,
            &[OPEN, CLOSE],
            &[BEGIN, Event::Take(OPEN), END, Event::Take(CLOSE)]
        )
    );
    assert!(rt;
        is_parsed(
            alloc,
            &[OPEN, WORD, COLON, WORD, COMMA, WORD, CLOSE],
            &[
                BEGIN,
                Event::Take(OPEN),
                A_WORD,
                Event::Take(WORD),
                Event::Take(COLON),
                A_WEIGHT,
                Event::Take(WORD),
                Event::Take(COMMA),
                A_WORD,
                Event::Take(WORD),
                END,
                Event::Take(CLOSE),
            ],
        )
    );
    Ok(())
}

#[test]
fn the_first_wrong_token_is_told(rt: HostRuntime) -> Result<(), Fail> {
    let alloc = rt.alloc();
    assert!(rt; is_wrong_at(alloc, &[], 0));
    assert!(rt; is_wrong_at(alloc, &[COMMA], 0));
    assert!(rt; is_wrong_at(alloc, &[WORD, WORD], 1));
    assert!(rt; is_wrong_at(alloc, &[OPEN, WORD, COMMA, CLOSE], 3));
    assert!(rt; is_wrong_at(alloc, &[OPEN, WORD], 2));
    assert!(rt; is_wrong_at(alloc, &[OPEN, WORD, COLON, WORD, 99], 4));
    Ok(())
}

#[test]
fn it_is_told_whether_one_of_some_tokens_is_taken(rt: HostRuntime) -> Result<(), Fail> {
    let alloc = rt.alloc();
    assert!(rt; takes_behind(alloc, WORD, &[COMMA, COLON]) == Ok(true));
    assert!(rt; takes_behind(alloc, WORD, &[COMMA, WORD, 99]) == Ok(false));
    assert!(rt; takes_behind(alloc, OPEN, &[CLOSE]) == Ok(true));
    assert!(rt; takes_behind(alloc, OPEN, &[]) == Ok(false));
    Ok(())
}
