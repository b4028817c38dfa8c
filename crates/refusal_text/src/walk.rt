// Where a word stands, by the words before it: in the head of a module, among its items, in a statement, in a task or a function.

use crate::words::{Words, is, is_name, is_one_of};
use vlex::{TokenKind, Tokens};

/// What a word stands in.
#[derive(Clone, Copy, PartialEq, Eq)]
pub(crate) enum Level {
    Outside,
    Head,
    Items,
    Statement,
    /// The words of a task or a function before its first semicolon.
    RoutineHead,
    Routine,
    /// What has rules of its own, and is passed over: a primitive, a `specify` block, a configuration.
    Passed,
}

/// What stands before the outermost brackets that are open.
#[derive(Clone, Copy, PartialEq, Eq)]
pub(crate) enum Group {
    Plain,
    Condition,
    Delay,
    Event,
    Print,
    Dump,
    Idle,
    System,
}

/// What an item, or a declaration in a block, begins with.
#[derive(Clone, Copy, PartialEq, Eq)]
pub(crate) enum Opening {
    Other,
    Variable,
    Net,
    Port,
    Parameter,
    Assign,
    Instance,
    Defparam,
}

/// What is known of a word from those before it.
#[derive(Clone, Copy)]
pub(crate) struct Walk {
    pub(crate) level: Level,
    pub(crate) group: Group,
    pub(crate) opening: Opening,
    /// How many brackets are open, and how many were when the innermost system call began; 0 outside of one.
    pub(crate) open: usize,
    pub(crate) call: usize,
    /// Whether an item begins here.
    pub(crate) starts: bool,
    /// Whether the value of an assignment or of a declaration has begun.
    pub(crate) assigned: bool,
    /// Whether a word of this event term, or of this delay, told something.
    pub(crate) told: bool,
    /// How many `?` wait for their `:`, outside of brackets or in those of a delay.
    pub(crate) chosen: usize,
    /// Whether this is inside `generate`, or an attribute.
    pub(crate) generates: bool,
    pub(crate) attribute: bool,
    /// Whether what is passed over stands in a module.
    within: bool,
    // the blocks of the statement that are open
    depth: usize,
}

pub(crate) const NETS: &str =
    "wire tri tri0 tri1 triand trior trireg uwire wand wor supply0 supply1";

pub(crate) const VARIABLES: &str = "reg integer event time real realtime";

pub(crate) const TYPES: &str = "logic bit int byte shortint longint string";

/// Those that have no x and no z.
pub(crate) const TWO_VALUED: &str = "bit int byte shortint longint";

/// With these processes of SystemVerilog begin.
pub(crate) const ALWAYS: &str = "always_comb always_ff always_latch";

// With these processes begin, those of SystemVerilog among them.
const PROCESSES: &str = "initial always always_comb always_ff always_latch";

/// The tasks that print.
pub(crate) const PRINTS: &str =
    "$display $displayb $displayo $displayh $write $writeb $writeo $writeh $strobe $strobeb $strobeo $strobeh $monitor \
    $monitorb $monitoro $monitorh";

/// The tasks that have no effect.
pub(crate) const IDLES: &str =
    "$fopen $fclose $fflush $fdisplay $fdisplayb $fdisplayo $fdisplayh $fwrite $fwriteb $fwriteo $fwriteh $fstrobe \
    $fstrobeb $fstrobeo $fstrobeh $fmonitor $fmonitorb $fmonitoro $fmonitorh $timeformat $printtimescale";

// Behind these, parentheses have a statement after them.
const CONDITIONS: &str = "if while for repeat wait case casez casex";

const BLOCKS: &str = "begin fork case casez casex";

const BLOCK_ENDS: &str = "end join endcase join_any join_none";

// Behind these `fork` begins no block.
const WAITS: &str = "wait disable";

const ROUTINE_ENDS: &str = "endfunction endtask";

// These stand in no brackets: where some are open, one was forgotten.
const UNBRACKETED: &str =
    "module endmodule initial always begin end else fork join case endcase function endfunction task endtask \
    endgenerate";

// These begin an item wherever they stand.
const ITEMS: &str = "initial always function task generate endgenerate specify";

// Behind these items an item begins.
const ITEM_ENDS: &str = "end else endcase endgenerate generate";

const PASSED: &str = "primitive config table package interface program class";

// These are passed over among items.
const PASSED_ITEMS: &str = "class property sequence clocking covergroup";

// Behind the name of one of these.
const PASSED_HEADS: &str = "; @ # extends";

const PASSED_ENDS: &str =
    "endprimitive endconfig endtable endpackage endinterface endprogram endclass endspecify endproperty endsequence \
    endclocking endgroup";

// Before these `final` begins a process.
const FINAL_STATEMENTS: &str = "begin if for case repeat while";

// What the brackets that this word opens stand behind.
fn group_of(words: Words<'_>) -> Group {
    let before = words.before;
    if !is(words.word, "(") {
        return Group::Plain;
    }
    match before {
        b"#" => Group::Delay,
        b"@" => Group::Event,
        word if is(word, "$dumpvars") => Group::Dump,
        word if is_one_of(word, CONDITIONS) => Group::Condition,
        word if is_one_of(word, PRINTS) => Group::Print,
        word if is_one_of(word, IDLES) => Group::Idle,
        word if word.starts_with(b"$") => Group::System,
        _ => Group::Plain,
    }
}

// What the item that this word begins is.
fn opening_of(words: Words<'_>) -> Opening {
    match words.word {
        word if is_one_of(word, VARIABLES) => Opening::Variable,
        word if is_one_of(word, NETS) => Opening::Net,
        word if is_one_of(word, "input output inout") => Opening::Port,
        word if is_one_of(word, "parameter localparam") => Opening::Parameter,
        word if is(word, "assign") => Opening::Assign,
        word if is(word, "defparam") => Opening::Defparam,
        _ if is_type(words) => Opening::Variable,
        _ if is_name(words.word) => Opening::Instance,
        _ => Opening::Other,
    }
}

// Whether what is behind a type is declared: a name that no parentheses follow, a sign, or a range and a name.
fn is_declared(words: Words<'_>) -> bool {
    let next = words.after;
    if is_name(next) {
        return !is_one_of(words.second_after, "( #");
    }
    let is_sized = is(next, "[") && is_name(words.next().behind_brackets());
    is_sized || is_one_of(next, "signed unsigned")
}

/// Whether the word is a type of SystemVerilog, and no other name.
pub(crate) fn is_type(words: Words<'_>) -> bool {
    is_one_of(words.word, TYPES) && is_declared(words)
}

/// Whether the word begins the final statements of SystemVerilog.
pub(crate) fn is_final(words: Words<'_>) -> bool {
    let next = words.after;
    is(words.word, "final") && (next.starts_with(b"$") || is_one_of(next, FINAL_STATEMENTS))
}

// Whether the word begins the clocking block that a module has by default.
fn is_default_clocking(words: Words<'_>) -> bool {
    let is_default = is(words.word, "default") && is(words.after, "clocking");
    is_default && (is(words.second_after, "@") || is(words.word_after(3), "@"))
}

/// Whether the word begins an item of SystemVerilog that has rules of its own.
pub(crate) fn passes_over(words: Words<'_>) -> bool {
    let is_named = is_one_of(words.word, PASSED_ITEMS) && is_name(words.after);
    (is_named && is_one_of(words.second_after, PASSED_HEADS)) || is_default_clocking(words)
}

// Whether the colon is one of two, as in the path of a name in a package.
fn is_of_path(words: Words<'_>) -> bool {
    is(words.after, ":") || is(words.before, ":")
}

impl Walk {
    /// Where a text begins.
    pub(crate) fn new() -> Walk {
        Walk {
            level: Level::Outside,
            group: Group::Plain,
            opening: Opening::Other,
            open: 0,
            call: 0,
            starts: false,
            assigned: false,
            told: false,
            chosen: 0,
            generates: false,
            attribute: false,
            within: false,
            depth: 0,
        }
    }

    // At this level, where something begins.
    fn at(&self, level: Level) -> Walk {
        let mut next = Walk::new();
        next.level = level;
        next.generates = self.generates;
        next.depth = self.depth;
        next.starts = level == Level::Items;
        next
    }

    // With so many blocks open.
    fn at_depth(&self, depth: usize) -> Walk {
        let mut next = self.at(self.level);
        next.depth = depth;
        next
    }

    /// Whether the word stands in the block of a statement.
    pub(crate) fn is_in_block(&self) -> bool {
        self.level == Level::Statement || (self.level == Level::Routine && self.depth > 0)
    }

    /// Whether the word stands in a task or a function.
    pub(crate) fn is_in_routine(&self) -> bool {
        self.level == Level::RoutineHead || self.level == Level::Routine
    }

    /// Where the word after this one stands.
    pub(crate) fn after(&self, words: Words<'_>) -> Walk {
        let word = words.word;
        if self.attribute {
            return self.in_attribute(words);
        }
        if is_one_of(word, "module macromodule") {
            return self.at(Level::Head);
        }
        if is(word, "endmodule") {
            return Walk::new();
        }
        if self.level == Level::Passed {
            return self.after_word(word);
        }
        if self.level == Level::Outside {
            return self.outside(words);
        }
        self.inside(words)
    }

    // In an attribute.
    fn in_attribute(&self, words: Words<'_>) -> Walk {
        let mut next = *self;
        if is(words.word, ")") && is(words.before, "*") {
            next.attribute = false;
        }
        next
    }

    // In what is passed over.
    fn after_word(&self, word: &[u8]) -> Walk {
        if !is_one_of(word, PASSED_ENDS) {
            return *self;
        }
        if self.within {
            return self.at(Level::Items);
        }
        Walk::new()
    }

    // Where what is passed over begins in a module.
    fn passing(&self) -> Walk {
        let mut next = self.at(Level::Passed);
        next.within = true;
        next
    }

    /// Whether the word begins an attribute.
    pub(crate) fn begins_attribute(&self, words: Words<'_>) -> bool {
        is(words.word, "(")
            && is(words.after, "*")
            && !is(words.second_after, ")")
            && !is(words.before, "@")
    }

    // Between modules.
    fn outside(&self, words: Words<'_>) -> Walk {
        let mut next = *self;
        if self.begins_attribute(words) {
            next.attribute = true;
        }
        if is_one_of(words.word, PASSED) {
            next.level = Level::Passed;
        }
        next
    }

    // In a module.
    fn inside(&self, words: Words<'_>) -> Walk {
        match words.word {
            _ if self.begins_attribute(words) => {
                let mut next = *self;
                next.attribute = true;
                next
            }
            b"(" | b"[" | b"{" => self.after_opening(words),
            b")" | b"]" | b"}" => self.after_closing(),
            word if self.open > 0 && !is_one_of(word, UNBRACKETED) => self.in_brackets(words),
            _ => self.along(words),
        }
    }

    // Behind an opening bracket.
    fn after_opening(&self, words: Words<'_>) -> Walk {
        let mut next = *self;
        next.starts = false;
        next.open = self.open.saturating_add(1);
        if self.open == 0 {
            next.group = group_of(words);
        }
        next.told = self.open > 0 && (self.told || self.group == Group::Event);
        if is(words.word, "(") && words.before.starts_with(b"$") {
            next.call = next.open;
        }
        next
    }

    // Behind a closing bracket.
    fn after_closing(&self) -> Walk {
        let mut next = *self;
        next.open = self.open.saturating_sub(1);
        if next.open < next.call {
            next.call = 0;
        }
        if next.open == 0 {
            next.starts = self.level == Level::Items && self.group == Group::Condition;
            next.group = Group::Plain;
        }
        next
    }

    // Between brackets.
    fn in_brackets(&self, words: Words<'_>) -> Walk {
        let word = words.word;
        let mut next = *self;
        if self.open == 1 && is_one_of(word, ", or") {
            next.told = false;
        } else if is(word, ":") || self.group == Group::Event {
            next.told = self.told || words.is(TokenKind::Symbol) || is(word, "iff");
        }
        if self.open == 1 && self.group == Group::Delay {
            next.chosen = self.chosen_after(word);
        }
        if self.open == 1 && self.group == Group::Plain && self.level == Level::Head {
            next.assigned = self.assigned_after(word);
        }
        next
    }

    // Whether the value of a port has begun behind the word, in a list of ports.
    fn assigned_after(&self, word: &[u8]) -> bool {
        match word {
            b"=" => true,
            b"," => false,
            _ => self.assigned,
        }
    }

    // How many `?` wait for their `:` behind the word.
    fn chosen_after(&self, word: &[u8]) -> usize {
        match word {
            b"?" => self.chosen.saturating_add(1),
            b":" => self.chosen.saturating_sub(1),
            _ => self.chosen,
        }
    }

    // Outside of brackets.
    fn along(&self, words: Words<'_>) -> Walk {
        let word = words.word;
        match self.level {
            Level::Head if is(word, ";") => self.at(Level::Items),
            Level::RoutineHead if is(word, ";") => self.at(Level::Routine),
            Level::Routine if is_one_of(word, ROUTINE_ENDS) => self.at(Level::Items),
            Level::Items => self.item(words),
            Level::Statement if is_one_of(word, ITEMS) => self.item_at(words),
            Level::Statement | Level::Routine => self.statement(words),
            _ => *self,
        }
    }

    // At the first word of an item.
    fn item_at(&self, words: Words<'_>) -> Walk {
        let word = words.word;
        let mut next = self.at(Level::Items);
        next.depth = 0;
        match word {
            word if is_one_of(word, PROCESSES) => next.at(Level::Statement),
            _ if is_final(words) => next.at(Level::Statement),
            _ if passes_over(words) => next.passing(),
            word if is_one_of(word, "function task") => next.at(Level::RoutineHead),
            word if is(word, "specify") => next.passing(),
            word if is_one_of(word, "generate endgenerate") => {
                next.generates = is(word, "generate");
                next
            }
            word if is(word, "begin") => {
                next.starts = !is(words.after, ":");
                next
            }
            b";" => next,
            word if is_one_of(word, ITEM_ENDS) => next,
            _ => {
                next.opening = opening_of(words);
                next.starts = false;
                next
            }
        }
    }

    // Among items.
    fn item(&self, words: Words<'_>) -> Walk {
        let word = words.word;
        if self.starts || is_one_of(word, ITEMS) || is_one_of(word, ITEM_ENDS) {
            return self.item_at(words);
        }
        if is(word, ";") {
            return self.at(Level::Items);
        }
        let names_block = is(words.before, ":") && is(words.second_before, "begin");
        let labels = is(word, ":") && !is(words.before, "begin");
        let holds_items = self.opening == Opening::Other || self.opening == Opening::Instance;
        if holds_items && (names_block || labels) {
            return self.at(Level::Items);
        }
        self.with_mark(word)
    }

    // Behind a word that ends nothing.
    fn with_mark(&self, word: &[u8]) -> Walk {
        let mut next = *self;
        match word {
            word if is_one_of(word, "= <=") => next.assigned = true,
            b"," if self.opening != Opening::Other => {
                next.assigned = false;
                next.told = false;
            }
            b":" => next.told = true,
            _ => {}
        }
        next.chosen = self.chosen_after(word);
        next
    }

    // Where a statement ended: among items, if it was the last one.
    fn after_end(&self, words: Words<'_>) -> Walk {
        if self.level == Level::Statement && self.depth == 0 && !is(words.after, "else") {
            return self.at(Level::Items);
        }
        self.at(self.level)
    }

    // In statements.
    fn statement(&self, words: Words<'_>) -> Walk {
        let word = words.word;
        match word {
            b";" => self.after_end(words),
            word if is_one_of(word, BLOCKS) && !is_one_of(words.before, WAITS) => {
                self.at_depth(self.depth.saturating_add(1))
            }
            word if is_one_of(word, BLOCK_ENDS) => {
                self.at_depth(self.depth.saturating_sub(1)).after_end(words)
            }
            b":" if self.chosen == 0 && !is_of_path(words) => self.at(self.level),
            word if is(word, "else") => self.at(self.level),
            word if is_one_of(word, VARIABLES) || is_type(words) => {
                let mut next = self.at(self.level);
                next.opening = Opening::Variable;
                next
            }
            _ => self.with_mark(word),
        }
    }
}

/// Where the word at this place stands, by the words before it.
pub(crate) fn walk_to<'a>(tokens: &'a Tokens<'a>, at: usize) -> Walk {
    let mut walk = Walk::new();
    for before in 0..at {
        walk = walk.after(Words::new(tokens, before));
    }
    walk
}
