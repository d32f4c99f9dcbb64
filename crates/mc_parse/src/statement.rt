// Reading statements. The depth is the number of counting nodes around what is read.

ghost use Rattle.std.specs.Prelude.{◌≡◌, ◌≤◌, ◌<◌, length, IfOk, IfErr};
ghost use Rattle.std.specs.Bool.{OnTrue, OnFalse};
ghost use Rattle.mc_tree.specs.Classes.{ReservedClass, NameClass, SymbolClass};
ghost use Rattle.mc_tree.specs.declared.statement.Statement.TheViews.{roll-Arm, roll-Case, roll-Elsif, roll-Exit, roll-If, roll-Repeat, roll-Statement, roll-While};
ghost use Rattle.mc_tree.specs.declared.statement.Statement.TheOpen.{Statement-F};
ghost use Rattle.mc_tree.specs.Grammar.{ArmPhrase, ArmsPhrase, ElsePhrase, ElsifsPhrase, ExitsPhrase, LastBodyPhrase, StatementPhrase, StatementsPhrase};
ghost use Rattle.mc_parse.specs.Heads.{HasFirst, HasOther};
ghost use Rattle.mc_parse.specs.Begins.{BeginsAssigning};
ghost use Rattle.mc_parse.specs.Reads.{IsRead, IsRefused, IsRefusedAs};
ghost use Rattle.mc_parse.specs.Slots.{IsBodyRead, body_ahead};

use crate::fault::ParseFault;
use crate::reader::{Read, Reader, deeper, sees_name, sees_symbol, sees_word};
use mc_tree::expression::{Designator, Expr};
use mc_tree::place::Place;
use mc_tree::statement::{Arm, Body, Case, Elsif, Exit, If, Loop, Repeat, Statement, While};
use mc_tree::token::{Reserved, Symbol, Token};
use mc_tree::tree::After;
use sqlite_items::{Boxed, Items};

// Whether what stands at the front, behind a name, is the rest of an assignment.
fn begins_assigning(rest: &[Token]) -> bool
    ensures yes { OnTrue result (BeginsAssigning rest.now) }
    ensures no { OnFalse result (HasOther (SymbolClass Symbol.Becomes) rest.now × HasOther (SymbolClass Symbol.Dot) rest.now × HasOther (SymbolClass Symbol.LeftBracket) rest.now) }
{
    sees_symbol(rest, Symbol::Becomes)
        || sees_symbol(rest, Symbol::Dot)
        || sees_symbol(rest, Symbol::LeftBracket)
}

// The nodes that hold an expression, which their readers hold apart.

fn if_node(
    word: Place,
    condition: Boxed<Expr>,
    then: Place,
    body: Body,
    elsifs: Items<Elsif>,
    otherwise: Option<After<Body>>,
    end: Place,
) -> Statement
    ensures { result ≡ roll-Statement (Statement-F.If (roll-If (record { word = word; condition = condition; then = then; body = body; elsifs = elsifs; otherwise = otherwise; end = end }))) }
{
    Statement::If(If {
        word,
        condition: condition.into_inner(),
        then,
        body,
        elsifs,
        otherwise,
        end,
    })
}

fn elsif_node(word: Place, condition: Boxed<Expr>, then: Place, body: Body) -> Elsif
    ensures { result ≡ roll-Elsif (record { word = word; condition = condition; then = then; body = body }) }
{
    Elsif {
        word,
        condition: condition.into_inner(),
        then,
        body,
    }
}

fn while_node(word: Place, condition: Boxed<Expr>, do_: Place, body: Body, end: Place) -> Statement
    ensures { result ≡ roll-Statement (Statement-F.While (roll-While (record { word = word; condition = condition; do_ = do_; body = body; end = end }))) }
{
    Statement::While(While {
        word,
        condition: condition.into_inner(),
        do_,
        body,
        end,
    })
}

fn repeat_node(word: Place, body: Body, until: Place, condition: Boxed<Expr>) -> Statement
    ensures { result ≡ roll-Statement (Statement-F.Repeat (roll-Repeat (record { word = word; body = body; until = until; condition = condition }))) }
{
    Statement::Repeat(Repeat {
        word,
        body,
        until,
        condition: condition.into_inner(),
    })
}

fn exit_node(
    when: Place,
    condition: Boxed<Expr>,
    last: Option<After<Body>>,
    exit: Place,
    body: Body,
) -> Exit
    ensures { result ≡ roll-Exit (record { when = when; condition = condition; last = last; exit = exit; body = body }) }
{
    Exit {
        when,
        condition: condition.into_inner(),
        last,
        exit,
        body,
    }
}

fn case_node(
    word: Place,
    choice: Boxed<Expr>,
    of: Place,
    first: Boxed<Arm>,
    more: Items<After<Arm>>,
    end: Place,
) -> Statement
    ensures { result ≡ roll-Statement (Statement-F.Case (roll-Case (record { word = word; choice = choice; of = of; first = first; more = more; end = end }))) }
{
    Statement::Case(Case {
        word,
        choice: choice.into_inner(),
        of,
        first: first.into_inner(),
        more,
        end,
    })
}

fn arm_node(
    first: Boxed<Expr>,
    more: Items<After<Expr>>,
    colon: Place,
    begin: Place,
    body: Body,
    end: Place,
) -> Arm
    ensures { result ≡ roll-Arm (record { first = first; more = more; colon = colon; begin = begin; body = body; end = end }) }
{
    Arm {
        first: first.into_inner(),
        more,
        colon,
        begin,
        body,
        end,
    }
}

impl Reader {
    /// `Statement { ; Statement }`
    #[cycle(statement)]
    pub fn body<'a>(self, rest: &'a [Token], depth: u32) -> Result<Read<'a, Body>, ParseFault>
        requires depth { depth ≤ 64 }
        ensures ok { IfOk result (λ r. IsBodyRead self.end depth rest.now r.item r.rest.now) }
        ensures within { IfOk result (λ r. length r.rest.now ≤ length rest.now) }
        ensures refused { IfErr result (λ fault. IsRefusedAs self.end (body_ahead depth) rest.now fault) }
    {
        let first = self.boxed_statement(rest, depth)?;
        let more = self.statements(first.rest, depth)?;
        Ok(Read {
            item: Body {
                first: first.item,
                more: more.item,
            },
            rest: more.rest,
        })
    }

    // A statement, put apart at once: what holds one while it reads on is slow to prove.
    #[cycle(statement)]
    fn boxed_statement<'a>(
        self,
        rest: &'a [Token],
        depth: u32,
    ) -> Result<Read<'a, Boxed<Statement>>, ParseFault>
        requires depth { depth ≤ 64 }
        ensures ok { IfOk result (λ r. IsRead self.end depth StatementPhrase rest.now r.item r.rest.now) }
        ensures within { IfOk result (λ r. length r.rest.now ≤ length rest.now) }
        ensures refused { IfErr result (λ fault. IsRefused self.end depth StatementPhrase rest.now fault) }
    {
        let statement = self.statement(rest, depth)?;
        let item = Boxed::new(self.alloc, statement.item)?;
        Ok(Read {
            item,
            rest: statement.rest,
        })
    }

    /// `{ ; Statement }`
    #[cycle(statement)]
    fn statements<'a>(
        self,
        rest: &'a [Token],
        depth: u32,
    ) -> Result<Read<'a, Items<After<Statement>>>, ParseFault>
        requires depth { depth ≤ 64 }
        ensures ok { IfOk result (λ r. IsRead self.end depth StatementsPhrase rest.now r.item r.rest.now) }
        ensures within { IfOk result (λ r. length r.rest.now ≤ length rest.now) }
        ensures refused { IfErr result (λ fault. IsRefused self.end depth StatementsPhrase rest.now fault) }
    {
        let mut items = Items::new(self.alloc);
        let mut left = rest;
        while sees_symbol(left, Symbol::Semicolon) {
            let mark = self.mark(left, Symbol::Semicolon)?;
            let item = self.statement(mark.rest, depth)?;
            items.push(After {
                mark: mark.item,
                item: item.item,
            })?;
            left = item.rest;
        }
        Ok(Read {
            item: items,
            rest: left,
        })
    }

    /// A statement, which is a counting node but where it is empty.
    #[cycle(statement)]
    fn statement<'a>(self, rest: &'a [Token], depth: u32) -> Result<Read<'a, Statement>, ParseFault>
        requires depth { depth ≤ 64 }
        ensures ok { IfOk result (λ r. IsRead self.end depth StatementPhrase rest.now r.item r.rest.now) }
        ensures within { IfOk result (λ r. length r.rest.now ≤ length rest.now) }
        ensures refused { IfErr result (λ fault. IsRefused self.end depth StatementPhrase rest.now fault) }
    {
        if sees_name(rest) {
            self.named_statement(rest, depth)
        } else if sees_word(rest, Reserved::IfWord) {
            self.choice(rest, depth)
        } else if sees_word(rest, Reserved::WhileWord) {
            self.while_loop(rest, depth)
        } else if sees_word(rest, Reserved::RepeatWord) {
            self.repeat(rest, depth)
        } else if sees_word(rest, Reserved::LoopWord) {
            self.plain_loop(rest, depth)
        } else if sees_word(rest, Reserved::CaseWord) {
            self.case(rest, depth)
        } else {
            Ok(self.no_statement(rest, depth))
        }
    }

    // The empty statement, where no other stands.
    fn no_statement<'a>(self, rest: &'a [Token], _depth: u32) -> Read<'a, Statement>
        requires name { HasOther NameClass rest.now }
        requires choice { HasOther (ReservedClass Reserved.IfWord) rest.now }
        requires while_loop { HasOther (ReservedClass Reserved.WhileWord) rest.now }
        requires repeat { HasOther (ReservedClass Reserved.RepeatWord) rest.now }
        requires plain_loop { HasOther (ReservedClass Reserved.LoopWord) rest.now }
        requires case { HasOther (ReservedClass Reserved.CaseWord) rest.now }
        ensures ok { IsRead self.end _depth StatementPhrase rest.now result.item result.rest.now }
        ensures same { result.rest.now ≡ rest.now }
    {
        Read {
            item: Statement::Empty,
            rest,
        }
    }

    // `id [ Args ]` or `Designator := Expr`
    fn named_statement<'a>(
        self,
        rest: &'a [Token],
        depth: u32,
    ) -> Result<Read<'a, Statement>, ParseFault>
        requires first { HasFirst NameClass rest.now }
        requires depth { depth ≤ 64 }
        ensures ok { IfOk result (λ r. IsRead self.end depth StatementPhrase rest.now r.item r.rest.now) }
        ensures within { IfOk result (λ r. length r.rest.now ≤ length rest.now) }
        ensures refused { IfErr result (λ fault. IsRefused self.end depth StatementPhrase rest.now fault) }
    {
        let inner = deeper(self.place(rest), depth)?;
        let name = self.name(rest)?;
        if sees_symbol(name.rest, Symbol::LeftParen) {
            let args = self.args(name.rest, inner)?;
            return Ok(Read {
                item: Statement::Call(name.item, Some(args.item)),
                rest: args.rest,
            });
        }
        if !begins_assigning(name.rest) {
            return Ok(Read {
                item: Statement::Call(name.item, None),
                rest: name.rest,
            });
        }
        let selectors = self.selectors(name.rest, inner)?;
        let becomes = self.mark(selectors.rest, Symbol::Becomes)?;
        let value = self.expr(becomes.rest, inner)?;
        let target = Designator {
            name: name.item,
            selectors: selectors.item,
        };
        Ok(Read {
            item: Statement::Assignment(target, becomes.item, value.item),
            rest: value.rest,
        })
    }

    // `if Expr then Body { elsif Expr then Body } [ else Body ] end`
    #[cycle(statement)]
    fn choice<'a>(self, rest: &'a [Token], depth: u32) -> Result<Read<'a, Statement>, ParseFault>
        requires first { HasFirst (ReservedClass Reserved.IfWord) rest.now }
        requires depth { depth ≤ 64 }
        ensures ok { IfOk result (λ r. IsRead self.end depth StatementPhrase rest.now r.item r.rest.now) }
        ensures within { IfOk result (λ r. length r.rest.now ≤ length rest.now) }
        ensures refused { IfErr result (λ fault. IsRefused self.end depth StatementPhrase rest.now fault) }
    {
        let inner = deeper(self.place(rest), depth)?;
        let word = self.word(rest, Reserved::IfWord)?;
        let condition = self.boxed_expr(word.rest, inner)?;
        let then = self.word(condition.rest, Reserved::ThenWord)?;
        let body = self.body(then.rest, inner)?;
        let elsifs = self.elsifs(body.rest, inner)?;
        let otherwise = self.otherwise(elsifs.rest, inner)?;
        let end = self.word(otherwise.rest, Reserved::EndWord)?;
        Ok(Read {
            item: if_node(
                word.item,
                condition.item,
                then.item,
                body.item,
                elsifs.item,
                otherwise.item,
                end.item,
            ),
            rest: end.rest,
        })
    }

    /// `{ elsif Expr then Body }`
    #[cycle(statement)]
    fn elsifs<'a>(self, rest: &'a [Token], depth: u32) -> Result<Read<'a, Items<Elsif>>, ParseFault>
        requires depth { depth ≤ 64 }
        ensures ok { IfOk result (λ r. IsRead self.end depth ElsifsPhrase rest.now r.item r.rest.now) }
        ensures within { IfOk result (λ r. length r.rest.now ≤ length rest.now) }
        ensures refused { IfErr result (λ fault. IsRefused self.end depth ElsifsPhrase rest.now fault) }
    {
        let mut items = Items::new(self.alloc);
        let mut left = rest;
        while sees_word(left, Reserved::ElsifWord) {
            let word = self.word(left, Reserved::ElsifWord)?;
            let condition = self.boxed_expr(word.rest, depth)?;
            let then = self.word(condition.rest, Reserved::ThenWord)?;
            let body = self.body(then.rest, depth)?;
            items.push(elsif_node(word.item, condition.item, then.item, body.item))?;
            left = body.rest;
        }
        Ok(Read {
            item: items,
            rest: left,
        })
    }

    /// `[ else Body ]`
    #[cycle(statement)]
    fn otherwise<'a>(
        self,
        rest: &'a [Token],
        depth: u32,
    ) -> Result<Read<'a, Option<After<Body>>>, ParseFault>
        requires depth { depth ≤ 64 }
        ensures ok { IfOk result (λ r. IsRead self.end depth ElsePhrase rest.now r.item r.rest.now) }
        ensures within { IfOk result (λ r. length r.rest.now ≤ length rest.now) }
        ensures refused { IfErr result (λ fault. IsRefused self.end depth ElsePhrase rest.now fault) }
    {
        if !sees_word(rest, Reserved::ElseWord) {
            return Ok(Read { item: None, rest });
        }
        let mark = self.word(rest, Reserved::ElseWord)?;
        let body = self.body(mark.rest, depth)?;
        Ok(Read {
            item: Some(After {
                mark: mark.item,
                item: body.item,
            }),
            rest: body.rest,
        })
    }

    // `while Expr do Body end`
    #[cycle(statement)]
    fn while_loop<'a>(
        self,
        rest: &'a [Token],
        depth: u32,
    ) -> Result<Read<'a, Statement>, ParseFault>
        requires first { HasFirst (ReservedClass Reserved.WhileWord) rest.now }
        requires depth { depth ≤ 64 }
        ensures ok { IfOk result (λ r. IsRead self.end depth StatementPhrase rest.now r.item r.rest.now) }
        ensures within { IfOk result (λ r. length r.rest.now ≤ length rest.now) }
        ensures refused { IfErr result (λ fault. IsRefused self.end depth StatementPhrase rest.now fault) }
    {
        let inner = deeper(self.place(rest), depth)?;
        let word = self.word(rest, Reserved::WhileWord)?;
        let condition = self.boxed_expr(word.rest, inner)?;
        let do_ = self.word(condition.rest, Reserved::DoWord)?;
        let body = self.body(do_.rest, inner)?;
        let end = self.word(body.rest, Reserved::EndWord)?;
        Ok(Read {
            item: while_node(word.item, condition.item, do_.item, body.item, end.item),
            rest: end.rest,
        })
    }

    // `repeat Body until Expr`
    #[cycle(statement)]
    fn repeat<'a>(self, rest: &'a [Token], depth: u32) -> Result<Read<'a, Statement>, ParseFault>
        requires first { HasFirst (ReservedClass Reserved.RepeatWord) rest.now }
        requires depth { depth ≤ 64 }
        ensures ok { IfOk result (λ r. IsRead self.end depth StatementPhrase rest.now r.item r.rest.now) }
        ensures within { IfOk result (λ r. length r.rest.now ≤ length rest.now) }
        ensures refused { IfErr result (λ fault. IsRefused self.end depth StatementPhrase rest.now fault) }
    {
        let inner = deeper(self.place(rest), depth)?;
        let word = self.word(rest, Reserved::RepeatWord)?;
        let body = self.body(word.rest, inner)?;
        let until = self.word(body.rest, Reserved::UntilWord)?;
        let condition = self.boxed_expr(until.rest, inner)?;
        Ok(Read {
            item: repeat_node(word.item, body.item, until.item, condition.item),
            rest: condition.rest,
        })
    }

    // `loop Body { when Expr [ do Body ] exit Body } end`
    #[cycle(statement)]
    fn plain_loop<'a>(
        self,
        rest: &'a [Token],
        depth: u32,
    ) -> Result<Read<'a, Statement>, ParseFault>
        requires first { HasFirst (ReservedClass Reserved.LoopWord) rest.now }
        requires depth { depth ≤ 64 }
        ensures ok { IfOk result (λ r. IsRead self.end depth StatementPhrase rest.now r.item r.rest.now) }
        ensures within { IfOk result (λ r. length r.rest.now ≤ length rest.now) }
        ensures refused { IfErr result (λ fault. IsRefused self.end depth StatementPhrase rest.now fault) }
    {
        let inner = deeper(self.place(rest), depth)?;
        let word = self.word(rest, Reserved::LoopWord)?;
        let body = self.body(word.rest, inner)?;
        let exits = self.exits(body.rest, inner)?;
        let end = self.word(exits.rest, Reserved::EndWord)?;
        Ok(Read {
            item: Statement::Loop(Loop {
                word: word.item,
                body: body.item,
                exits: exits.item,
                end: end.item,
            }),
            rest: end.rest,
        })
    }

    /// `{ when Expr [ do Body ] exit Body }`
    #[cycle(statement)]
    fn exits<'a>(self, rest: &'a [Token], depth: u32) -> Result<Read<'a, Items<Exit>>, ParseFault>
        requires depth { depth ≤ 64 }
        ensures ok { IfOk result (λ r. IsRead self.end depth ExitsPhrase rest.now r.item r.rest.now) }
        ensures within { IfOk result (λ r. length r.rest.now ≤ length rest.now) }
        ensures refused { IfErr result (λ fault. IsRefused self.end depth ExitsPhrase rest.now fault) }
    {
        let mut items = Items::new(self.alloc);
        let mut left = rest;
        while sees_word(left, Reserved::WhenWord) {
            let when = self.word(left, Reserved::WhenWord)?;
            let condition = self.boxed_expr(when.rest, depth)?;
            let last = self.last_body(condition.rest, depth)?;
            let exit = self.word(last.rest, Reserved::ExitWord)?;
            let body = self.body(exit.rest, depth)?;
            items.push(exit_node(when.item, condition.item, last.item, exit.item, body.item))?;
            left = body.rest;
        }
        Ok(Read {
            item: items,
            rest: left,
        })
    }

    /// `[ do Body ]`
    #[cycle(statement)]
    fn last_body<'a>(
        self,
        rest: &'a [Token],
        depth: u32,
    ) -> Result<Read<'a, Option<After<Body>>>, ParseFault>
        requires depth { depth ≤ 64 }
        ensures ok { IfOk result (λ r. IsRead self.end depth LastBodyPhrase rest.now r.item r.rest.now) }
        ensures within { IfOk result (λ r. length r.rest.now ≤ length rest.now) }
        ensures refused { IfErr result (λ fault. IsRefused self.end depth LastBodyPhrase rest.now fault) }
    {
        if !sees_word(rest, Reserved::DoWord) {
            return Ok(Read { item: None, rest });
        }
        let mark = self.word(rest, Reserved::DoWord)?;
        let body = self.body(mark.rest, depth)?;
        Ok(Read {
            item: Some(After {
                mark: mark.item,
                item: body.item,
            }),
            rest: body.rest,
        })
    }

    // `case Expr of Arm { ; Arm } end`
    #[cycle(statement)]
    fn case<'a>(self, rest: &'a [Token], depth: u32) -> Result<Read<'a, Statement>, ParseFault>
        requires first { HasFirst (ReservedClass Reserved.CaseWord) rest.now }
        requires depth { depth ≤ 64 }
        ensures ok { IfOk result (λ r. IsRead self.end depth StatementPhrase rest.now r.item r.rest.now) }
        ensures within { IfOk result (λ r. length r.rest.now ≤ length rest.now) }
        ensures refused { IfErr result (λ fault. IsRefused self.end depth StatementPhrase rest.now fault) }
    {
        let inner = deeper(self.place(rest), depth)?;
        let word = self.word(rest, Reserved::CaseWord)?;
        let choice = self.boxed_expr(word.rest, inner)?;
        let of = self.word(choice.rest, Reserved::OfWord)?;
        let first = self.boxed_arm(of.rest, inner)?;
        let more = self.arms(first.rest, inner)?;
        let end = self.word(more.rest, Reserved::EndWord)?;
        Ok(Read {
            item: case_node(
                word.item,
                choice.item,
                of.item,
                first.item,
                more.item,
                end.item,
            ),
            rest: end.rest,
        })
    }

    // An arm, put apart at once.
    #[cycle(statement)]
    fn boxed_arm<'a>(
        self,
        rest: &'a [Token],
        depth: u32,
    ) -> Result<Read<'a, Boxed<Arm>>, ParseFault>
        requires depth { depth ≤ 64 }
        ensures ok { IfOk result (λ r. IsRead self.end depth ArmPhrase rest.now r.item r.rest.now) }
        ensures shorter { IfOk result (λ r. length r.rest.now < length rest.now) }
        ensures refused { IfErr result (λ fault. IsRefused self.end depth ArmPhrase rest.now fault) }
    {
        let arm = self.arm(rest, depth)?;
        let item = Boxed::new(self.alloc, arm.item)?;
        Ok(Read {
            item,
            rest: arm.rest,
        })
    }

    /// `{ ; Arm }`
    #[cycle(statement)]
    fn arms<'a>(
        self,
        rest: &'a [Token],
        depth: u32,
    ) -> Result<Read<'a, Items<After<Arm>>>, ParseFault>
        requires depth { depth ≤ 64 }
        ensures ok { IfOk result (λ r. IsRead self.end depth ArmsPhrase rest.now r.item r.rest.now) }
        ensures within { IfOk result (λ r. length r.rest.now ≤ length rest.now) }
        ensures refused { IfErr result (λ fault. IsRefused self.end depth ArmsPhrase rest.now fault) }
    {
        let mut items = Items::new(self.alloc);
        let mut left = rest;
        while sees_symbol(left, Symbol::Semicolon) {
            let mark = self.mark(left, Symbol::Semicolon)?;
            let item = self.arm(mark.rest, depth)?;
            items.push(After {
                mark: mark.item,
                item: item.item,
            })?;
            left = item.rest;
        }
        Ok(Read {
            item: items,
            rest: left,
        })
    }

    /// `Expr { , Expr } : begin Body end`
    #[cycle(statement)]
    fn arm<'a>(self, rest: &'a [Token], depth: u32) -> Result<Read<'a, Arm>, ParseFault>
        requires depth { depth ≤ 64 }
        ensures ok { IfOk result (λ r. IsRead self.end depth ArmPhrase rest.now r.item r.rest.now) }
        ensures shorter { IfOk result (λ r. length r.rest.now < length rest.now) }
        ensures refused { IfErr result (λ fault. IsRefused self.end depth ArmPhrase rest.now fault) }
    {
        let first = self.boxed_expr(rest, depth)?;
        let more = self.comma_exprs(first.rest, depth)?;
        let colon = self.mark(more.rest, Symbol::Colon)?;
        let begin = self.word(colon.rest, Reserved::BeginWord)?;
        let body = self.body(begin.rest, depth)?;
        let end = self.word(body.rest, Reserved::EndWord)?;
        Ok(Read {
            item: arm_node(
                first.item, more.item, colon.item, begin.item, body.item, end.item,
            ),
            rest: end.rest,
        })
    }
}
