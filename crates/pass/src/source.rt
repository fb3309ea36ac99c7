// A circuit that was read, and what is told of it.
use crate::Outcome;
use crate::register::put_register;
use arrival::Edge;
use as_json::Place;
use cli::{Form, Layout, PassOptions};
use std::alloc::{AllocError, Global};
use std::fmt;
use std::fmt::Write;
use text::Listing;

// Which of the worst paths are told: how many, and by the slack of which times.
#[derive(Clone, Copy)]
struct Worst {
    paths: usize,
    edge: Edge,
}

// The times whose slacks are told: the earliest, or the latest.
fn edge_of(early: bool) -> Edge {
    if early { Edge::Early } else { Edge::Late }
}

// A circuit that was read, and the name of its file.
#[derive(Clone, Copy)]
pub(crate) struct Source<'a> {
    pub(crate) file: &'a str,
    pub(crate) listing: &'a Listing,
}

impl<'a> Source<'a> {
    fn name(self) -> &'a [u8] {
        &self.listing.draft.name
    }

    fn place(self) -> Place<'a> {
        Place {
            file: self.file,
            name: self.name(),
            line: self.listing.draft.line,
        }
    }

    // All that is found, as JSON.
    fn json(self, heap: Global) -> Result<String, AllocError> {
        match answer::circuit(self.listing) {
            Ok(circuit) => as_json::judged(heap, self.place(), circuit),
            Err(refused) => as_json::turned_away(heap, self.place(), refused),
        }
    }

    // All that is found, as a line of JSON.
    fn put_json(self, heap: Global, out: &mut String) -> fmt::Result {
        let json = self.json(heap)?;
        out.push_str(&json)?;
        Ok(out.push_str("\n")?)
    }

    // The report on it; or, where it is turned away, the line that says so as a comment.
    fn put_report(self, heap: Global, line: &str, out: &mut String) -> fmt::Result {
        let Ok(circuit) = answer::circuit(self.listing) else {
            return Ok(write!(out, "# {line}")?);
        };
        match report::write(heap, self.name(), circuit) {
            Ok(report) => Ok(out.push_str(&report)?),
            // A name that was read can be read again, so memory is short.
            Err(_) => Err(fmt::Error),
        }
    }

    // The line on it, and paths where it has some. Not inlined, so that room for them is on the stack only where they are
    // asked for.
    #[inline(never)]
    fn put_paths(self, line: &str, out: &mut String) -> fmt::Result {
        out.push_str(line)?;
        match answer::circuit(self.listing) {
            Ok(circuit) => path_table::put(out, circuit),
            Err(_) => Ok(()),
        }
    }

    // The line on it, and tables of its worst paths.
    fn put_worst_tables(
        self,
        heap: Global,
        worst: Worst,
        layout: Layout,
        line: &str,
        out: &mut String,
    ) -> fmt::Result {
        out.push_str(line)?;
        let Ok(circuit) = answer::circuit(self.listing) else {
            return Ok(());
        };
        let Ok(paths) = worst_paths::worst(heap, circuit, worst.edge, worst.paths) else {
            return Err(fmt::Error);
        };
        path_table::put_worst(out, circuit, worst.edge, &paths)?;
        if layout == Layout::Steps {
            path_table::put_steps(out, circuit, worst.edge, &paths)?;
        }
        Ok(())
    }

    // All that is found and its worst paths, as a line of JSON.
    fn put_worst_json(self, heap: Global, worst: Worst, out: &mut String) -> fmt::Result {
        let Ok(circuit) = answer::circuit(self.listing) else {
            return self.put_json(heap, out);
        };
        let Ok(paths) = worst_paths::worst(heap, circuit, worst.edge, worst.paths) else {
            return Err(fmt::Error);
        };
        let json = as_json::judged_with_worst(heap, self.place(), circuit, &paths)?;
        out.push_str(&json)?;
        Ok(out.push_str("\n")?)
    }

    // Its shortest period, and what was found.
    fn tell_period(self, heap: Global, out: &mut String) -> Result<Outcome, fmt::Error> {
        let paced = answer::period(heap, self.listing)?;
        out.push_str(&paced.line)?;
        Ok(Outcome::of(paced.period.is_some()))
    }

    // Its smallest setup margin as a part of its period, and what was found.
    fn tell_ratio(self, heap: Global, out: &mut String) -> Result<Outcome, fmt::Error> {
        let rated = answer::ratio(heap, self.listing)?;
        out.push_str(&rated.line)?;
        Ok(Outcome::of(!rated.turned_away))
    }

    // What is found of one of its registers alone.
    fn tell_register(
        self,
        heap: Global,
        register: usize,
        out: &mut String,
    ) -> Result<Outcome, fmt::Error> {
        let name = self.name();
        match answer::circuit(self.listing) {
            Ok(circuit) => Ok(Outcome::of(put_register(out, name, circuit, register)?)),
            Err(refused) => {
                out.push_str(&answer::turned_away(heap, name, refused)?)?;
                Ok(Outcome::NotPassed)
            }
        }
    }

    // All else that is told of it, with the line that is said.
    fn put(self, heap: Global, form: Form, line: &str, out: &mut String) -> fmt::Result {
        match form {
            Form::Json => self.put_json(heap, out),
            Form::Report => self.put_report(heap, line, out),
            Form::Paths => self.put_paths(line, out),
            Form::Worst {
                paths,
                early,
                layout,
            } => {
                let edge = edge_of(early);
                let worst = Worst { paths, edge };
                match layout {
                    Layout::Json => self.put_worst_json(heap, worst, out),
                    Layout::Table | Layout::Steps => {
                        self.put_worst_tables(heap, worst, layout, line, out)
                    }
                }
            }
            Form::Words | Form::Period | Form::Near => Ok(out.push_str(line)?),
        }
    }

    // What is told of it, and what was found. All that can fail is memory.
    pub(crate) fn tell(
        self,
        heap: Global,
        options: &PassOptions<'_>,
        out: &mut String,
    ) -> Result<Outcome, fmt::Error> {
        let form = options.form;
        if let Some(register) = options.register {
            return self.tell_register(heap, register, out);
        }
        if form == Form::Period {
            return self.tell_period(heap, out);
        }
        if form == Form::Near {
            return self.tell_ratio(heap, out);
        }
        let said = answer::answer(heap, self.listing)?;
        self.put(heap, form, &said.line, out)?;
        Ok(Outcome::of(said.margins.is_some()))
    }
}
