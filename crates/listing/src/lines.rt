//! The lines of a listing.
ghost use Rattle.std.specs.Prelude.{◌≡◌, ◌++◌, IfOk, string_bytes, OnOk};
ghost use Rattle.listing.specs.Listing.{each_from, sort_text, process_text, count_text, listing_text};
ghost use Rattle.marks.specs.Words.{marking};
ghost use Rattle.table.specs.Lists.{meant};

use marks::instances;
use marks::marks::{Marks, Sort};
use std::alloc::{AllocError, Global};
use std::fmt::Write;
use table::questions::{Table, process_or_blank};
use table::record::Process;
use table::site::Site;

/// Every marked instance of the table on a line of its own, then how many of how many are marked.
pub fn describe<T: Table>(heap: Global, table: &T, marks: &Marks) -> Result<String, AllocError>
    ensures { IfOk result (λ s. string_bytes s ≡ listing_text (T.lists table.now) (marking marks.now)) }
{
    let mut text = String::new(heap);
    for p in 0..table.process_count() {
        push_process(&mut text, marks, &process_or_blank(table, p), p)?;
    }
    push_count(&mut text, table, marks)?;
    Ok(text)
}

/// How many of how many instances are marked.
fn push_count<T: Table>(text: &mut String, table: &T, marks: &Marks) -> Result<(), AllocError>
    ensures { OnOk result (string_bytes text.new ≡ string_bytes text.old ++ count_text (T.lists table.now) (marking marks.now)) }
{
    let marked = marks.total();
    let all = instances(table);
    write!(text, "{marked} of {all}\n")
}

fn push_process(
    text: &mut String,
    marks: &Marks,
    process: &Process,
    p: usize,
) -> Result<(), AllocError>
    ensures { OnOk result (string_bytes text.new ≡ string_bytes text.old ++ process_text (marking marks.now) (meant process.now) p) }
{
    for location in 0..usize::from(process.locations) {
        let site = Site {
            process: p,
            location,
        };
        push_sort(text, marks, Sort::Variable, site, process.variables)?;
        push_sort(text, marks, Sort::Timer, site, process.timers)?;
    }
    Ok(())
}

/// The first so many variables, or timers, of a location.
fn push_sort(
    text: &mut String,
    marks: &Marks,
    sort: Sort,
    site: Site,
    count: u8,
) -> Result<(), AllocError>
    ensures { OnOk result (string_bytes text.new ≡ string_bytes text.old ++ each_from (sort_text sort (marking marks.now) site.process site.location) 0 count) }
{
    for n in 0..usize::from(count) {
        push_instance(text, marks, sort, site, n)?;
    }
    Ok(())
}

/// The line of an instance, where it is marked.
fn push_instance(
    text: &mut String,
    marks: &Marks,
    sort: Sort,
    site: Site,
    n: usize,
) -> Result<(), AllocError>
    ensures { OnOk result (string_bytes text.new ≡ string_bytes text.old ++ sort_text sort (marking marks.now) site.process site.location n) }
{
    if !marks.has(sort, site, n) {
        return Ok(());
    }
    let Site { process, location } = site;
    write!(text, "{process} {location} {sort}{n}\n")
}
