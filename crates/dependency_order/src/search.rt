//! The search for an order: items wait for their turn, and what they yield gets known.

ghost use Rattle.std.specs.Prelude.{◌≡◌, ◌<◌, ◌⊎◌, [], ℕ, length, slice_index, OnOk, Contains};
ghost use Rattle.dependency_order.specs.Dependencies.{AreInRange, yields_of};
ghost use Rattle.dependency_order.specs.Orders.{IsKnown};
ghost use Rattle.dependency_order.specs.Searches.{IsSearch, IsSettled, AllSettled, Steps, IsReader, AreReaders, AreYielded, LearnsOne, IsDone};

use crate::agendas::Agenda;
use crate::dependencies::Dependencies;
use crate::progress::Progress;
use crate::readers::Readers;
use std::alloc::AllocError;

/// Goes on with one item.
fn visit<A: Agenda>(
    dependencies: &Dependencies,
    progress: &mut Progress,
    agenda: &mut A,
    item: u32,
) -> Result<(), AllocError>
    requires range { AreInRange dependencies.now }
    requires item { item < length dependencies.now.needs }
    requires fits { A.fits (A.keys agenda.old) item }
    requires search { IsSearch dependencies.now (A.allows (A.keys agenda.old)) progress.old (A.waiting agenda.old) }
    ensures steps { OnOk result (Steps dependencies.now (A.allows (A.keys agenda.old)) progress.old progress.new (A.waiting agenda.new)) }
    ensures settled { OnOk result (IsSettled dependencies.now progress.new item) }
    ensures kept { A.keys agenda.new ≡ A.keys agenda.old }
{
    if progress.advance(dependencies.needs(item), item as usize) {
        agenda.insert(item)?;
        return Ok(());
    }
    Ok(())
}

/// Goes on with each item once.
pub(crate) fn visit_all<A: Agenda>(
    dependencies: &Dependencies,
    progress: &mut Progress,
    agenda: &mut A,
) -> Result<(), AllocError>
    requires range { AreInRange dependencies.now }
    requires fits { (item : ℕ) → item < length dependencies.now.needs → A.fits (A.keys agenda.old) item }
    requires search { IsSearch dependencies.now (A.allows (A.keys agenda.old)) progress.old (A.waiting agenda.old) }
    ensures steps { OnOk result (Steps dependencies.now (A.allows (A.keys agenda.old)) progress.old progress.new (A.waiting agenda.new)) }
    ensures settled { OnOk result (AllSettled dependencies.now progress.new) }
    ensures kept { A.keys agenda.new ≡ A.keys agenda.old }
{
    let count = dependencies.len() as u32;
    for item in 0..count {
        visit(dependencies, progress, agenda, item)?;
    }
    Ok(())
}

/// Goes on with each item that needs this number.
fn visit_readers<A: Agenda>(
    dependencies: &Dependencies,
    readers: &Readers,
    progress: &mut Progress,
    agenda: &mut A,
    number: u32,
) -> Result<(), AllocError>
    requires range { AreInRange dependencies.now }
    requires readers { AreReaders dependencies.now readers.now }
    requires number { number < dependencies.now.count }
    requires fits { (item : ℕ) → item < length dependencies.now.needs → A.fits (A.keys agenda.old) item }
    requires search { IsSearch dependencies.now (A.allows (A.keys agenda.old)) progress.old (A.waiting agenda.old) }
    requires left { (item : ℕ) → item < length dependencies.now.needs
        → IsSettled dependencies.now progress.old item ⊎ IsReader readers.now (slice_index readers.now.heads number) item }
    ensures steps { OnOk result (Steps dependencies.now (A.allows (A.keys agenda.old)) progress.old progress.new (A.waiting agenda.new)) }
    ensures settled { OnOk result (AllSettled dependencies.now progress.new) }
    ensures kept { A.keys agenda.new ≡ A.keys agenda.old }
{
    let mut head = readers.head(number);
    while head != 0 {
        visit(dependencies, progress, agenda, readers.owner(head - 1))?;
        head = readers.next(head - 1);
    }
    Ok(())
}

/// Makes one number known, and goes on with the items that need it.
fn learn<A: Agenda>(
    dependencies: &Dependencies,
    readers: &Readers,
    progress: &mut Progress,
    agenda: &mut A,
    number: u32,
) -> Result<(), AllocError>
    requires range { AreInRange dependencies.now }
    requires readers { AreReaders dependencies.now readers.now }
    requires number { number < dependencies.now.count }
    requires yielded { IsKnown dependencies.now progress.old.order number }
    requires fits { (item : ℕ) → item < length dependencies.now.needs → A.fits (A.keys agenda.old) item }
    requires search { IsSearch dependencies.now (A.allows (A.keys agenda.old)) progress.old (A.waiting agenda.old) }
    requires settled { AllSettled dependencies.now progress.old }
    ensures search { OnOk result (IsSearch dependencies.now (A.allows (A.keys agenda.old)) progress.new (A.waiting agenda.new)) }
    ensures settled { OnOk result (AllSettled dependencies.now progress.new) }
    ensures order { OnOk result (progress.new.order ≡ progress.old.order) }
    ensures known { OnOk result (LearnsOne progress.old.known number progress.new.known) }
    ensures kept { A.keys agenda.new ≡ A.keys agenda.old }
{
    if progress.knows(number) {
        return Ok(());
    }
    progress.learn(number);
    visit_readers(dependencies, readers, progress, agenda, number)?;
    Ok(())
}

/// Makes all that an item yields known.
fn spread<A: Agenda>(
    dependencies: &Dependencies,
    readers: &Readers,
    progress: &mut Progress,
    agenda: &mut A,
    item: u32,
) -> Result<(), AllocError>
    requires range { AreInRange dependencies.now }
    requires readers { AreReaders dependencies.now readers.now }
    requires item { item < length dependencies.now.needs }
    requires last { Contains progress.old.order item }
    requires fits { (item : ℕ) → item < length dependencies.now.needs → A.fits (A.keys agenda.old) item }
    requires search { IsSearch dependencies.now (A.allows (A.keys agenda.old)) progress.old (A.waiting agenda.old) }
    requires settled { AllSettled dependencies.now progress.old }
    requires yielded { AreYielded dependencies.now (yields_of dependencies.now item) progress.old }
    ensures search { OnOk result (IsSearch dependencies.now (A.allows (A.keys agenda.old)) progress.new (A.waiting agenda.new)) }
    ensures settled { OnOk result (AllSettled dependencies.now progress.new) }
    ensures yielded { OnOk result (AreYielded dependencies.now [] progress.new) }
    ensures order { OnOk result (progress.new.order ≡ progress.old.order) }
    ensures kept { A.keys agenda.new ≡ A.keys agenda.old }
{
    for number in dependencies.yields(item) {
        learn(dependencies, readers, progress, agenda, *number)?;
    }
    Ok(())
}

/// Takes the items whose turn it is, until none waits.
pub(crate) fn take_all<A: Agenda>(
    dependencies: &Dependencies,
    readers: &Readers,
    progress: &mut Progress,
    agenda: &mut A,
) -> Result<(), AllocError>
    requires range { AreInRange dependencies.now }
    requires readers { AreReaders dependencies.now readers.now }
    requires fits { (item : ℕ) → item < length dependencies.now.needs → A.fits (A.keys agenda.old) item }
    requires search { IsSearch dependencies.now (A.allows (A.keys agenda.old)) progress.old (A.waiting agenda.old) }
    requires settled { AllSettled dependencies.now progress.old }
    requires yielded { AreYielded dependencies.now [] progress.old }
    ensures { OnOk result (IsDone dependencies.now (A.allows (A.keys agenda.old)) progress.new) }
{
    while let Some(item) = agenda.take() {
        progress.put(item)?;
        spread(dependencies, readers, progress, agenda, item)?;
    }
    Ok(())
}
