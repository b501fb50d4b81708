//! A book on a desk: with the memory that each call is lent, and what each call answered.

use crate::telling::tell_refusal;
use book::book::Book;
use book::fault::BookFault;
use refusal::fault::Refusal;
use std::alloc::{AllocError, Global};
use table::record::{Edge, Process, Signal, Term};

/// Room for more than the worked example has.
const EDGES: usize = 8;

const TERMS: usize = 8;

#[derive(Drop)]
pub struct Desk {
    pub book: Book,
    pub edges: Vec<Edge>,
    pub terms: Vec<Term>,
}

impl Desk {
    pub fn new(heap: Global) -> Result<Desk, AllocError> {
        Ok(Desk {
            book: Book::new(),
            edges: vec![in heap; Edge::default(); EDGES]?,
            terms: vec![in heap; Term::default(); TERMS]?,
        })
    }

    pub fn process(
        &mut self,
        rt: &HostRuntime,
        name: &str,
        process: &Process,
    ) -> anyhow::Result<()> {
        let answer = self.book.declare_process(&self.edges, &self.terms, process);
        print!(rt; "declare process {name}: ")?;
        tell_number(rt, answer)
    }

    pub fn signal(&mut self, rt: &HostRuntime, name: &str, signal: Signal) -> anyhow::Result<()> {
        let answer = self.book.declare_signal(&self.edges, &self.terms, signal);
        print!(rt; "declare signal {name}: ")?;
        tell_number(rt, answer)
    }

    pub fn expression(
        &mut self,
        rt: &HostRuntime,
        text: &str,
        terms: &[Term],
    ) -> anyhow::Result<()> {
        let answer = self
            .book
            .enter_expression(&self.edges, &mut self.terms, terms);
        print!(rt; "enter expression {text}: ")?;
        tell_number(rt, answer)
    }

    pub fn edge(&mut self, rt: &HostRuntime, text: &str, edge: Edge) -> anyhow::Result<()> {
        let answer = self.book.enter_edge(&mut self.edges, &self.terms, edge);
        print!(rt; "enter edge {text}: ")?;
        tell_number(rt, answer)
    }

    pub fn change(
        &mut self,
        rt: &HostRuntime,
        k: usize,
        text: &str,
        edge: Edge,
    ) -> anyhow::Result<()> {
        let answer = self.book.change_edge(&mut self.edges, &self.terms, k, edge);
        print!(rt; "change edge {k} to {text}: ")?;
        tell_done(rt, answer)
    }

    pub fn strike(&mut self, rt: &HostRuntime, k: usize) -> anyhow::Result<()> {
        let answer = self.book.strike_edge(&mut self.edges, &self.terms, k);
        print!(rt; "strike edge {k}: ")?;
        tell_done(rt, answer)
    }

    pub fn mark(&mut self, rt: &HostRuntime) -> anyhow::Result<()> {
        let answer = self.book.mark(&self.edges, &self.terms);
        print!(rt; "mark: ")?;
        tell_number(rt, answer)
    }

    pub fn ready(&self, rt: &HostRuntime) -> anyhow::Result<()> {
        print!(rt; "ready: ")?;
        tell_done(rt, self.book.ready())
    }
}

fn tell_number(rt: &HostRuntime, answer: Result<usize, BookFault>) -> anyhow::Result<()> {
    match answer {
        Ok(number) => println!(rt; "{number}")?,
        Err(fault) => tell_refusal(rt, Refusal::from(fault))?,
    }
    Ok(())
}

fn tell_done(rt: &HostRuntime, answer: Result<(), BookFault>) -> anyhow::Result<()> {
    match answer {
        Ok(()) => println!(rt; "done")?,
        Err(fault) => tell_refusal(rt, Refusal::from(fault))?,
    }
    Ok(())
}
