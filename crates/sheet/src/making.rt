// Making a sheet of its parts.
ghost use Rattle.std.specs.Prelude.{◌≡◌, IfOk};
ghost use Rattle.sheet.specs.Making.{Makes, Remakes, Idle, Blank};
ghost use Rattle.sheet.specs.Sheets.{events_of, rows_of};

use crate::sheet::Sheet;
use crate::terms::Terms;
use expression::Expression;
use limits::Refusal;
use osl::{Class, Event, Row, Test};
use std::alloc::{AllocError, Global};
use text::Name;

fn idle(heap: Global) -> Result<Event, AllocError>
    ensures { IfOk result Idle }
{
    let Some(name) = Name::new(String::from_str(heap, "idle")?) else {
        unreachable!()
    };
    Ok(Event {
        name,
        class: Class::Other,
        params: Vec::new(heap),
    })
}

impl Sheet {
    // The blank sheet: the event `idle`, which is no use, the row `always true`, and term 1 is kept.
    pub fn blank(heap: Global) -> Result<Sheet, AllocError>
        ensures { IfOk result Blank }
    {
        let events = vec![in heap; idle(heap)?]?;
        let rows = vec![in heap; Row::Always(Test::True)]?;
        let Ok(sheet) = Sheet::new(events, rows, Expression::blank()) else {
            unreachable!()
        };
        Ok(sheet)
    }

    // The sheet of these events and rows that keeps this expression, or the first question that says no.
    pub fn new(events: Vec<Event>, rows: Vec<Row>, keep: Expression) -> Result<Sheet, Refusal>
        ensures { Makes events rows keep result }
    {
        let terms = Terms::judged(&events, &rows, &keep)?;
        let matched = terms.matched();
        let sizes = terms.sizes();
        Ok(Sheet {
            events,
            rows,
            keep,
            matched,
            sizes,
        })
    }

    // Makes this sheet anew of these parts. A refusal leaves it as it was.
    pub fn make(
        &mut self,
        events: Vec<Event>,
        rows: Vec<Row>,
        keep: Expression,
    ) -> Result<(), Refusal>
        ensures { Remakes events rows keep self.old result self.new }
    {
        *self = Sheet::new(events, rows, keep)?;
        Ok(())
    }

    pub fn events(&self) -> &[Event]
        ensures { result.now ≡ events_of self.now }
    {
        &self.events
    }

    pub fn rows(&self) -> &[Row]
        ensures { result.now ≡ rows_of self.now }
    {
        &self.rows
    }

    pub fn keep(&self) -> Expression
        ensures { result ≡ self.now.keep }
    {
        self.keep
    }
}
