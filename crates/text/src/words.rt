// Refusals in words: docs/refusals.txt has the list, and compare/lists.py holds these to it.
use crate::out::{put, put_number};
use std::io;

fn put_unknown(rt: &impl Print) -> io::Result<()> {
    put(rt, b"not a number of the list")
}

// Of a layout.
fn put_reading(rt: &impl Print, number: u8) -> io::Result<()> {
    match number {
        1 => put(rt, b"not a known mark and version"),
        2 => put(rt, b"the bytes end early"),
        3 => put(rt, b"unknown type code, unit or required mark"),
        4 => put(
            rt,
            b"more than 16384 bytes, a name or zone of more than 63, or a type deeper than 16",
        ),
        5 => put(rt, b"a column repeats a sibling's name or id"),
        6 => put(rt, b"bytes are left over"),
        _ => put_unknown(rt),
    }
}

// Of a table of defaults.
fn put_table_reading(rt: &impl Print, number: u8) -> io::Result<()> {
    match number {
        3 => put(
            rt,
            b"unknown type code, unit, kind or load byte, a wrong precision or scale, a type that is no leaf, or a value that does not fit its type",
        ),
        4 => put(rt, b"more than 16384 bytes, or a zone of more than 63"),
        5 => put(rt, b"an entry repeats an id of its kind"),
        _ => put_reading(rt, number),
    }
}

// Of a build.
fn put_building(rt: &impl Print, number: u8) -> io::Result<()> {
    match number {
        10 => put(rt, b"a layout of the wrong version"),
        11 => put(
            rt,
            b"a target column has no counterpart, and missing columns are not inserted",
        ),
        12 => put(rt, b"a struct repeats a field's name"),
        13 => put(
            rt,
            b"an incoming struct has a field that the target lacks, and such are not ignored",
        ),
        14 => put(
            rt,
            b"a target struct's field has no counterpart, and missing fields are not inserted",
        ),
        15 => put(rt, b"null to another type is not allowed"),
        16 => put(rt, b"a cast between integers is not allowed"),
        17 => put(rt, b"the target's range lacks an incoming value"),
        18 => put(rt, b"a cast to a wider float is not allowed"),
        19 => put(rt, b"a cast to a narrower float is not allowed"),
        _ => put_unknown(rt),
    }
}

// Of a build too.
fn put_matching(rt: &impl Print, number: u8) -> io::Result<()> {
    match number {
        20 => put(rt, b"a cast of an integer to a float is not allowed"),
        21 => put(rt, b"a change of time zone is not allowed"),
        22 => put(rt, b"a change of time unit is not allowed"),
        23 => put(rt, b"a cast of a category to a string is not allowed"),
        24 => put(rt, b"no rule takes the one type to the other"),
        25 => put(
            rt,
            b"the elements of two lists or arrays have different ids",
        ),
        26 => put(
            rt,
            b"the default wanted is a partition's value that could not be loaded",
        ),
        27 => put(rt, b"the plan is longer than the buffer or 65536 bytes"),
        28 => put(rt, b"the default taken has a type unlike the field's"),
        _ => put_unknown(rt),
    }
}

// Of a check.
fn put_checking(rt: &impl Print, number: u8) -> io::Result<()> {
    match number {
        30 => put(rt, b"malformed plan"),
        31 => put(rt, b"a selector takes a position that is not there"),
        32 => put(
            rt,
            b"a transform does not fit its input, or its result is too deep or too large a type",
        ),
        33 => put(
            rt,
            b"names, types or count of the columns made differ from the target's",
        ),
        _ => put_unknown(rt),
    }
}

// Of a run.
fn put_running(rt: &impl Print, number: u8) -> io::Result<()> {
    match number {
        40 => put(rt, b"the record ends early"),
        41 => put(rt, b"a bad presence or boolean byte in the record"),
        42 => put(rt, b"bytes of the record are left over"),
        43 => put(rt, b"the record has more than 16384 bytes"),
        44 => put(rt, b"a date-time is too large for its finer unit"),
        45 => put(rt, b"the output exceeds the buffer or 16384 bytes"),
        _ => put_unknown(rt),
    }
}

// Of document 02's requests.
fn put_requested(rt: &impl Print, number: u8) -> io::Result<()> {
    match number {
        50 => put(
            rt,
            b"a decimal's precision is not 1 to 18, or its scale is larger than its precision",
        ),
        51 => put(
            rt,
            b"a cast to a decimal of larger precision is not allowed",
        ),
        52 => put(
            rt,
            b"a decimal of the record has more digits than its precision",
        ),
        53 => put(
            rt,
            b"an incoming column has no counterpart, and extra columns are not ignored",
        ),
        54 => put(rt, b"a required field would be filled with null"),
        55 => put(rt, b"an optional field meets a required one"),
        56 => put(rt, b"null in a required field of the record"),
        _ => put_unknown(rt),
    }
}

fn put_words(rt: &impl Print, number: u8) -> io::Result<()> {
    match number {
        1..=9 => put_reading(rt, number),
        10..=19 => put_building(rt, number),
        20..=29 => put_matching(rt, number),
        30..=39 => put_checking(rt, number),
        40..=49 => put_running(rt, number),
        50..=56 => put_requested(rt, number),
        _ => put_unknown(rt),
    }
}

// Whether a refusal of this number has a place.
fn has_place(number: u8) -> bool {
    match number {
        1..=6 => true,
        11..=26 => true,
        28 => true,
        31..=32 => true,
        53 => true,
        _ => false,
    }
}

// What stands before the words.
fn put_refused(rt: &impl Print, number: u8, place: u16) -> io::Result<()> {
    put(rt, b"refused ")?;
    put_number(rt, number as u64)?;
    if has_place(number) {
        put(rt, b" (place ")?;
        put_number(rt, place as u64)?;
        put(rt, b")")?;
    }
    put(rt, b": ")
}

// refused 3 (place 1): unknown type code, unit or required mark
pub fn put_refusal(rt: &impl Print, number: u8, place: u16) -> io::Result<()> {
    put_refused(rt, number, place)?;
    put_words(rt, number)?;
    put(rt, b"\n")
}

// Of a table of defaults, whose entries are refused for more than a layout's columns are.
pub fn put_table_refusal(rt: &impl Print, number: u8) -> io::Result<()> {
    put_refused(rt, number, 1)?;
    put_table_reading(rt, number)?;
    put(rt, b"\n")
}
