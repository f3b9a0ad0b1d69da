// Counts of rows, a line for each mnemonic.
use crate::row::{is_right, mnemonic};

// Rows that follow one another under one mnemonic; without one, rows that are no instruction.
#[derive(Clone, Copy)]
struct Group {
    mnemonic: Option<&'static str>,
    rows: u32,
}

#[derive(Clone, Copy, Default)]
pub(crate) struct Tally {
    // that of the last row, once there is a row
    group: Option<Group>,
    right: u32,
    pub(crate) wrong: u32,
}

impl Tally {
    // Counts a row, under its mnemonic.
    pub(crate) fn count(&mut self, rt: &HostRuntime, row: &[u8]) -> anyhow::Result<()> {
        let right = is_right(rt.alloc(), row)?;
        let mnemonic = mnemonic(row);
        match &mut self.group {
            Some(group) if group.mnemonic == mnemonic => group.rows = group.rows.saturating_add(1),
            _ => {
                self.print(rt)?;
                self.group = Some(Group { mnemonic, rows: 1 });
            }
        }
        if right {
            self.right = self.right.saturating_add(1);
        } else {
            self.wrong = self.wrong.saturating_add(1);
        }
        Ok(())
    }

    fn print(&self, rt: &HostRuntime) -> anyhow::Result<()> {
        if let Some(group) = self.group {
            println!(rt; "{} {}", group.mnemonic.unwrap_or(""), group.rows)?;
        }
        Ok(())
    }

    pub(crate) fn end(&self, rt: &HostRuntime) -> anyhow::Result<()> {
        self.print(rt)?;
        println!(rt; "{} rows right, {} wrong", self.right, self.wrong)?;
        Ok(())
    }
}
