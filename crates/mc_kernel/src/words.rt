// The kernel's words, line by line of its listing, which specs/Words.antt has with its comments.

use mc_word::Word;

/// The words from address 400 (octal) on.
pub const WORDS: [Word; 179] = [
    0o010546, // emt: MOV R5, -(SP)
    0o010446, // MOV R4, -(SP)
    0o010346, // MOV R3, -(SP)
    0o010246, // MOV R2, -(SP)
    0o010146, // MOV R1, -(SP)
    0o010046, // MOV R0, -(SP)
    0o013703, 0o002000, // MOV @#cur, R3
    0o010663, 0o000004, // MOV SP, dsp(R3)
    0o000115, // JMP (R5)
    0o010546, // vreader: MOV R5, -(SP)
    0o012705, 0o002020, // MOV #reader, R5
    0o000417, // BR interrupt
    0o010546, // vpunch: MOV R5, -(SP)
    0o012705, 0o002024, // MOV #punch, R5
    0o000413, // BR interrupt
    0o010546, // vkeys: MOV R5, -(SP)
    0o012705, 0o002030, // MOV #keys, R5
    0o000407, // BR interrupt
    0o010546, // vprint: MOV R5, -(SP)
    0o012705, 0o002034, // MOV #printer, R5
    0o000403, // BR interrupt
    0o010546, // vclock: MOV R5, -(SP)
    0o012705, 0o002040, // MOV #clock, R5
    0o010446, // interrupt: MOV R4, -(SP)
    0o010346, // MOV R3, -(SP)
    0o010246, // MOV R2, -(SP)
    0o010146, // MOV R1, -(SP)
    0o010046, // MOV R0, -(SP)
    0o011502, // MOV (R5), R2
    0o001470, // BEQ back
    0o005015, // CLR (R5)
    0o013703, 0o002000, // MOV @#cur, R3
    0o001402, // BEQ above
    0o010663, 0o000004, // MOV SP, dsp(R3)
    0o010362, 0o000010, // above: MOV R3, below(R2)
    0o010203, // MOV R2, R3
    0o000447, // BR resume
    0o012706, 0o002400, // choose: MOV #stack, SP
    0o005037, 0o002000, // CLR @#cur
    0o005037, 0o177776, // CLR @#PS
    0o013703, 0o002004, // MOV @#ready, R3
    0o001412, // BEQ idle
    0o012737, 0o000340, 0o177776, // chosen: MOV #340, @#PS
    0o011337, 0o002004, // MOV (R3), @#ready
    0o001030, // BNE resume
    0o012737, 0o002004, 0o002006, // MOV #ready, @#last
    0o000424, // BR resume
    0o000001, // idle: WAIT
    0o000753, // BR choose
    0o011002, // send: MOV (R0), R2
    0o001427, // BEQ back
    0o011210, // MOV (R2), (R0)
    0o005762, 0o000012, // TST slot(R2)
    0o001341, // BNE above
    0o005763, 0o000012, // TST slot(R3)
    0o001003, // BNE enqueue
    0o010304, // MOV R3, R4
    0o010203, // MOV R2, R3
    0o010402, // MOV R4, R2
    0o005012, // enqueue: CLR (R2)
    0o013704, 0o002006, // MOV @#last, R4
    0o010214, // MOV R2, (R4)
    0o010237, 0o002006, // MOV R2, @#last
    0o010337, 0o002000, // resume: MOV R3, @#cur
    0o016337, 0o000006, 0o002002, // MOV dbound(R3), @#bound
    0o016306, 0o000004, // MOV dsp(R3), SP
    0o012600, // back: MOV (SP)+, R0
    0o012601, // MOV (SP)+, R1
    0o012602, // MOV (SP)+, R2
    0o012603, // MOV (SP)+, R3
    0o012604, // MOV (SP)+, R4
    0o012605, // MOV (SP)+, R5
    0o000002, // RTI
    0o010163, 0o000002, // wait: MOV R1, rank(R3)
    0o010004, // MOV R0, R4
    0o010402, // 1walk: MOV R4, R2
    0o011204, // MOV (R2), R4
    0o001403, // BEQ 1here
    0o026401, 0o000002, // CMP rank(R4), R1
    0o003772, // BLE 1walk
    0o010413, // 1here: MOV R4, (R3)
    0o010312, // MOV R3, (R2)
    0o016303, 0o000010, // leave: MOV below(R3), R3
    0o001675, // BEQ choose
    0o000743, // BR resume
    0o010373, 0o000012, // doio: MOV R3, @slot(R3)
    0o000771, // BR leave
    0o005337, 0o000050, // end: DEC @#live
    0o013713, 0o002010, // MOV @#free, (R3)
    0o010337, 0o002010, // MOV R3, @#free
    0o000762, // BR leave
    0o016001, 0o000004, // start: MOV rslot(R0), R1
    0o001405, // BEQ 2room
    0o005761, 0o000002, // TST 2(R1)
    0o001046, // BNE 2twice
    0o010161, 0o000002, // MOV R1, 2(R1)
    0o013702, 0o002010, // 2room: MOV @#free, R2
    0o001442, // BEQ 2full
    0o011237, 0o002010, // MOV (R2), @#free
    0o005237, 0o000050, // INC @#live
    0o010162, 0o000012, // MOV R1, slot(R2)
    0o016204, 0o000014, // MOV top(R2), R4
    0o016005, 0o000002, // MOV params(R0), R5
    0o001407, // BEQ 2copied
    0o010601, // MOV SP, R1
    0o062701, 0o000020, // ADD #20, R1
    0o060501, // ADD R5, R1
    0o060501, // ADD R5, R1
    0o014144, // 2copy: MOV -(R1), -(R4)
    0o077502, // SOB R5, 2copy
    0o162704, 0o000004, // 2copied: SUB #4, R4
    0o016044, 0o000006, // MOV priority(R0), -(R4)
    0o011044, // MOV (R0), -(R4)
    0o162704, 0o000014, // SUB #14, R4
    0o010462, 0o000004, // MOV R4, dsp(R2)
    0o005762, 0o000012, // TST slot(R2)
    0o001205, // BNE above
    0o005062, 0o000010, // CLR below(R2)
    0o000647, // BR enqueue
    0o104407, // 2twice: TRAP 7
    0o104411, // 2full: TRAP 11
    0o011604, // trap: MOV (SP), R4
    0o016437, 0o177776, 0o000046, // MOV 177776(R4), @#trapped
    0o042737, 0o177400, 0o000046, // BIC #177400, @#trapped
    0o000000, // HALT
];
