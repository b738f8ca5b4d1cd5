// A program that embeds two sites, which edit one text by calls and exchange their operations in memory: then both hold
// the same text.
use crate::checks::same;
use rt_requests::{Request, Texts, Word, Words};
use rt_script::SiteState;
use rt_stamps::limits::{MOST_BYTES, MOST_CELLS};
use rt_stamps::{Fault, Site};
use std::alloc::Global;
use std::process::Abort;

// A new site of a number from 1 to 4,294,967,295.
fn new_site(alloc: Global, number: u32) -> Result<SiteState, Fault> {
    let site = Site::new(number).ok_or(Fault::BadStamp)?;
    SiteState::new(alloc, site, MOST_CELLS)
}

// Puts text before the character at an index.
fn insert(alloc: Global, site: &mut SiteState, index: &str, text: &str) -> Result<(), Fault> {
    let index = Word::new(index);
    let texts = Texts::new(Vec::new(alloc), text);
    site.answer(".t", &Request::Insert { index, texts })?;
    Ok(())
}

// The words of two indices.
fn range(alloc: Global, from: &str, to: &str) -> Result<[String; 2], Fault> {
    Ok([String::from_str(alloc, from)?, String::from_str(alloc, to)?])
}

// Takes the characters of a range away.
fn delete(alloc: Global, site: &mut SiteState, from: &str, to: &str) -> Result<(), Fault> {
    let range = range(alloc, from, to)?;
    let indices = Words::new(&range).ok_or(Fault::BadCommand)?;
    site.answer(".t", &Request::Delete { indices })?;
    Ok(())
}

// The first line.
fn line(alloc: Global, site: &mut SiteState) -> Result<String, Fault> {
    let range = range(alloc, "1.0", "1.end")?;
    let indices = Words::new(&range).ok_or(Fault::BadCommand)?;
    let reply = site.answer(".t", &Request::Get { indices })?;
    Ok(reply.words.concat(alloc)?)
}

// Gives another site what it lacks, and answers how many of these operations it had already.
fn send(from: &SiteState, to: &mut SiteState) -> Result<u64, Fault> {
    let bytes = from.export_since(&to.ends()?)?;
    if bytes.len() > MOST_BYTES {
        return Err(Fault::ReadFault);
    }
    let received = to.receive(&bytes);
    match received.fault {
        Some((fault, _)) => Err(fault),
        None => Ok(received.repeats),
    }
}

// Two sites with one text, which each changes by itself then.
fn edited(alloc: Global) -> Result<[SiteState; 2], Fault> {
    let mut anna = new_site(alloc, 1)?;
    let mut ben = new_site(alloc, 2)?;
    insert(alloc, &mut anna, "1.0", "milk, bread")?;
    send(&anna, &mut ben)?;
    insert(alloc, &mut anna, "1.0", "buy ")?;
    delete(alloc, &mut ben, "1.6", "1.end")?;
    insert(alloc, &mut ben, "1.end", "butter")?;
    Ok([anna, ben])
}

// Stops a test where a site is sent an operation that it has.
fn sends(rt: &impl Abort, from: &SiteState, to: &mut SiteState) {
    same(rt, send(from, to).expect(rt, "memory"), 0);
}

// Stops a test where a site's first line isn't what is wanted.
fn has_line(rt: &impl Abort, alloc: Global, site: &mut SiteState, wanted: &str) {
    let line = line(alloc, site).expect(rt, "memory");
    same(rt, line.as_str(), wanted);
}

#[test]
fn two_sites_within_a_program(rt: HostRuntime) {
    let alloc = rt.alloc();
    let [mut anna, mut ben] = edited(alloc).expect(&rt, "memory");
    has_line(&rt, alloc, &mut anna, "buy milk, bread");
    has_line(&rt, alloc, &mut ben, "milk, butter");
    sends(&rt, &anna, &mut ben);
    sends(&rt, &ben, &mut anna);
    has_line(&rt, alloc, &mut anna, "buy milk, butter");
    has_line(&rt, alloc, &mut ben, "buy milk, butter");
}
