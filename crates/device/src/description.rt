ghost use Rattle.std.specs.Prelude.{◌≡◌, ◌+◌, ◌-◌, ◌%◌, ◌≤◌};

// One part: where its code starts, where its RAM ends, the top of its stack and how many bytes the
// stack has, and how many interrupt sources there are. Whoever holds one holds lawful values.
#[derive(Clone, Copy)]
pub struct Description {
    pub(crate) code_start: u16,
    pub(crate) ram_end: u16,
    pub(crate) stack_top: u16,
    pub(crate) levels: u16,
    pub(crate) sources: u8,
    ghost code_low: { 0xC000 ≤ code_start },
    ghost code_high: { code_start ≤ 0xFFC0 },
    ghost ram_low: { 0x00FF ≤ ram_end },
    ghost ram_high: { ram_end ≤ 0x07FF },
    ghost known_levels: { levels ≡ 64 },
    ghost stack_aligned: { stack_top % levels ≡ levels - 1 },
    ghost stack_low: { 0x0080 + (levels - 1) ≤ stack_top },
    ghost stack_high: { stack_top ≤ ram_end },
    ghost few_sources: { sources ≤ 8 },
}

impl Description {
    // How many bytes a record has.
    pub const LENGTH: usize = 8;

    pub fn code_start(&self) -> u16
        ensures { result ≡ self.now.code_start }
    {
        self.code_start
    }

    pub fn ram_end(&self) -> u16
        ensures { result ≡ self.now.ram_end }
    {
        self.ram_end
    }

    pub fn stack_top(&self) -> u16
        ensures { result ≡ self.now.stack_top }
    {
        self.stack_top
    }

    // How many bytes the stack has.
    pub fn levels(&self) -> u16
        ensures { result ≡ self.now.levels }
    {
        self.levels
    }

    // How many interrupt sources the part has.
    pub fn sources(&self) -> u8
        ensures { result ≡ self.now.sources }
    {
        self.sources
    }
}
