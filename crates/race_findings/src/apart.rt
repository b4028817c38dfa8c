// What two ends of runs differ in.

/// What two ends differ in: in time or cause, in the values of these variables, in the lines of the last slot.
pub struct Apart {
    pub in_end: bool,
    pub variables: Vec<usize>,
    pub in_lines: bool,
}

impl Drop for Apart {
    fn drop(self) {
        let Apart {
            in_end: _,
            variables: _,
            in_lines: _,
        } = self;
    }
}

/// Of what two ends differ in, that which is told first: a verdict is mostly a printed line, so lines come before values.
#[derive(Clone, Copy)]
pub enum Foremost {
    End,
    Lines,
    Variable(usize),
}

impl Apart {
    /// What is told first.
    pub fn foremost(&self) -> Foremost {
        match self.variables.first() {
            _ if self.in_end => Foremost::End,
            Some(number) if !self.in_lines => Foremost::Variable(*number),
            _ => Foremost::Lines,
        }
    }

    /// The variables that are told behind that.
    pub fn others(&self) -> &[usize] {
        match self.foremost() {
            Foremost::End => &[],
            Foremost::Lines => self.variables.as_slice(),
            Foremost::Variable(_) => self.variables.get(1..).unwrap_or(&[]),
        }
    }
}
