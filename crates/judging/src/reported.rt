// What a solver tells after a call.
use crate::book::Value;
use std::alloc::{AllocError, Global};

// Why a value is out: a constraint, where one is known, and a time.
#[derive(Clone, Copy, PartialEq, Eq)]
pub struct Account {
    pub constraint: Option<usize>,
    pub time: u64,
}

// The domain of a variable, and an account for each value that is out.
#[derive(Clone, Copy)]
struct Variable {
    domain: u64,
    accounts: [Option<Account>; 64],
}

// What a network reports of each variable.
#[derive(Drop)]
pub struct Reported {
    variables: Vec<Variable>,
}

impl Reported {
    // Nothing of no variable.
    pub fn new(heap: Global) -> Reported {
        Reported {
            variables: Vec::new(heap),
        }
    }

    // Takes in the domain of one variable more.
    pub fn add_domain(&mut self, domain: u64) -> Result<(), AllocError> {
        let accounts = [None; 64];
        self.variables.push(Variable { domain, accounts })?;
        Ok(())
    }

    // Are these the domains?
    pub fn has_domains(&self, domains: &[u64]) -> bool {
        self.variables
            .iter()
            .map(|variable| variable.domain)
            .eq(domains.iter().copied())
    }

    pub fn shows(&self, value: Value) -> bool {
        match self.variables.get(value.variable) {
            Some(variable) => bits::has(variable.domain, value.value),
            None => false,
        }
    }

    pub fn account(&self, value: Value) -> Option<Account> {
        *self
            .variables
            .get(value.variable)?
            .accounts
            .get(value.value)?
    }

    // The constraint of the value's account, where one is known.
    pub fn constraint(&self, value: Value) -> Option<usize> {
        self.account(value)?.constraint
    }

    pub fn set_account(&mut self, value: Value, account: Account) {
        if let Some(variable) = self.variables.get_mut(value.variable) {
            if let Some(place) = variable.accounts.get_mut(value.value) {
                *place = Some(account);
            }
        }
    }

    // Is the value out since before that time?
    pub fn out_before(&self, value: Value, time: u64) -> bool {
        match self.account(value) {
            Some(account) => !self.shows(value) && account.time < time,
            None => false,
        }
    }
}
