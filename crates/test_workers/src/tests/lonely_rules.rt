//! Trips by one way fares alone whose rules don't combine end on end with themselves: each sector takes another rule.

use super::cases::Input;

/// Six rules, of which no more than four combine with each other.
const SIX_RULES: &str =
    "HEAD,1,1,2025-01-01\nCUR,AA,XAA,1.000000,2,1,U\nCUR,AB,XAB,1.000000,2,1,U\nCITY,CAA,AA,2\n\
     CITY,CAB,AB,2\nRULE,R0,16,16,0,0,999,Y,*,R1 R2 R3 R4\nRULE,R1,16,16,0,0,999,Y,*,R0 R2 R3 R5\n\
     RULE,R2,16,16,0,0,999,Y,*,R0 R1 R3 R4\nRULE,R3,16,16,0,0,999,Y,*,R0 R1 R2 R4 R5\n\
     RULE,R4,16,16,0,0,999,Y,*,R0 R2 R3 R5\nRULE,R5,16,16,0,0,999,Y,*,R1 R3 R4\nFARE,CAA,CAB,EH,YY,Y,OW,R0,100.77\n\
     FARE,CAA,CAB,EH,YY,Y,OW,R1,101.18\nFARE,CAA,CAB,EH,YY,Y,OW,R2,103.25\nFARE,CAA,CAB,EH,YY,Y,OW,R3,100.77\n\
     FARE,CAA,CAB,EH,YY,Y,OW,R4,104.44\nFARE,CAA,CAB,EH,YY,Y,OW,R5,104.74\nFARE,CAB,CAA,EH,YY,Y,OW,R0,102.67\n\
     FARE,CAB,CAA,EH,YY,Y,OW,R1,101.99\nFARE,CAB,CAA,EH,YY,Y,OW,R2,103.79\nFARE,CAB,CAA,EH,YY,Y,OW,R3,100.07\n\
     FARE,CAB,CAA,EH,YY,Y,OW,R4,103.43\nFARE,CAB,CAA,EH,YY,Y,OW,R5,103.97\nEND\n";

/// Four sectors and six rules, of which four combine with each other.
pub static AS_MANY_RULES_AS_SECTORS: Input = Input {
    tariff: SIX_RULES,
    itinerary: "{\"sale\":\"2025-03-01\",\"from\":\"CAA\",\"sectors\":[\
                {\"to\":\"CAB\",\"carrier\":\"Q1\",\"day\":\"2025-04-01\",\"cabin\":\"Y\"},\
                {\"to\":\"CAA\",\"carrier\":\"Q1\",\"day\":\"2025-04-02\",\"cabin\":\"Y\"},\
                {\"to\":\"CAB\",\"carrier\":\"Q1\",\"day\":\"2025-04-03\",\"cabin\":\"Y\"},\
                {\"to\":\"CAA\",\"carrier\":\"Q1\",\"day\":\"2025-04-04\",\"cabin\":\"Y\"}]}",
};

/// One sector more: no five of the rules combine with each other.
pub static A_SECTOR_MORE_THAN_RULES: Input = Input {
    tariff: SIX_RULES,
    itinerary: "{\"sale\":\"2025-03-01\",\"from\":\"CAA\",\"sectors\":[\
                {\"to\":\"CAB\",\"carrier\":\"Q1\",\"day\":\"2025-04-01\",\"cabin\":\"Y\"},\
                {\"to\":\"CAA\",\"carrier\":\"Q1\",\"day\":\"2025-04-02\",\"cabin\":\"Y\"},\
                {\"to\":\"CAB\",\"carrier\":\"Q1\",\"day\":\"2025-04-03\",\"cabin\":\"Y\"},\
                {\"to\":\"CAA\",\"carrier\":\"Q1\",\"day\":\"2025-04-04\",\"cabin\":\"Y\"},\
                {\"to\":\"CAB\",\"carrier\":\"Q1\",\"day\":\"2025-04-05\",\"cabin\":\"Y\"}]}",
};

/// Sixteen sectors and fifteen rules, each of which combines with all others.
pub static ONE_RULE_TOO_FEW: Input = Input {
    tariff: "HEAD,1,1,2025-01-01\nCUR,AA,XAA,1.000000,2,1,U\nCUR,AB,XAB,1.000000,2,1,U\nCITY,CAA,AA,2\n\
             CITY,CAB,AB,2\nRULE,R0,16,16,0,0,999,Y,*,R1 R2 R3 R4 R5 R6 R7 R8 R9 R10 R11 R12 R13 R14\n\
             RULE,R1,16,16,0,0,999,Y,*,R0 R2 R3 R4 R5 R6 R7 R8 R9 R10 R11 R12 R13 R14\n\
             RULE,R2,16,16,0,0,999,Y,*,R0 R1 R3 R4 R5 R6 R7 R8 R9 R10 R11 R12 R13 R14\n\
             RULE,R3,16,16,0,0,999,Y,*,R0 R1 R2 R4 R5 R6 R7 R8 R9 R10 R11 R12 R13 R14\n\
             RULE,R4,16,16,0,0,999,Y,*,R0 R1 R2 R3 R5 R6 R7 R8 R9 R10 R11 R12 R13 R14\n\
             RULE,R5,16,16,0,0,999,Y,*,R0 R1 R2 R3 R4 R6 R7 R8 R9 R10 R11 R12 R13 R14\n\
             RULE,R6,16,16,0,0,999,Y,*,R0 R1 R2 R3 R4 R5 R7 R8 R9 R10 R11 R12 R13 R14\n\
             RULE,R7,16,16,0,0,999,Y,*,R0 R1 R2 R3 R4 R5 R6 R8 R9 R10 R11 R12 R13 R14\n\
             RULE,R8,16,16,0,0,999,Y,*,R0 R1 R2 R3 R4 R5 R6 R7 R9 R10 R11 R12 R13 R14\n\
             RULE,R9,16,16,0,0,999,Y,*,R0 R1 R2 R3 R4 R5 R6 R7 R8 R10 R11 R12 R13 R14\n\
             RULE,R10,16,16,0,0,999,Y,*,R0 R1 R2 R3 R4 R5 R6 R7 R8 R9 R11 R12 R13 R14\n\
             RULE,R11,16,16,0,0,999,Y,*,R0 R1 R2 R3 R4 R5 R6 R7 R8 R9 R10 R12 R13 R14\n\
             RULE,R12,16,16,0,0,999,Y,*,R0 R1 R2 R3 R4 R5 R6 R7 R8 R9 R10 R11 R13 R14\n\
             RULE,R13,16,16,0,0,999,Y,*,R0 R1 R2 R3 R4 R5 R6 R7 R8 R9 R10 R11 R12 R14\n\
             RULE,R14,16,16,0,0,999,Y,*,R0 R1 R2 R3 R4 R5 R6 R7 R8 R9 R10 R11 R12 R13\n\
             FARE,CAA,CAB,EH,YY,Y,OW,R0,100.17\nFARE,CAA,CAB,EH,YY,Y,OW,R1,100.72\n\
             FARE,CAA,CAB,EH,YY,Y,OW,R2,100.97\nFARE,CAA,CAB,EH,YY,Y,OW,R3,100.08\n\
             FARE,CAA,CAB,EH,YY,Y,OW,R4,100.32\nFARE,CAA,CAB,EH,YY,Y,OW,R5,100.15\n\
             FARE,CAA,CAB,EH,YY,Y,OW,R6,100.63\nFARE,CAA,CAB,EH,YY,Y,OW,R7,100.97\n\
             FARE,CAA,CAB,EH,YY,Y,OW,R8,100.57\nFARE,CAA,CAB,EH,YY,Y,OW,R9,100.60\n\
             FARE,CAA,CAB,EH,YY,Y,OW,R10,100.83\nFARE,CAA,CAB,EH,YY,Y,OW,R11,100.48\n\
             FARE,CAA,CAB,EH,YY,Y,OW,R12,100.26\nFARE,CAA,CAB,EH,YY,Y,OW,R13,100.12\n\
             FARE,CAA,CAB,EH,YY,Y,OW,R14,100.62\nFARE,CAB,CAA,EH,YY,Y,OW,R0,100.03\n\
             FARE,CAB,CAA,EH,YY,Y,OW,R1,100.49\nFARE,CAB,CAA,EH,YY,Y,OW,R2,100.55\n\
             FARE,CAB,CAA,EH,YY,Y,OW,R3,100.77\nFARE,CAB,CAA,EH,YY,Y,OW,R4,100.97\n\
             FARE,CAB,CAA,EH,YY,Y,OW,R5,100.98\nFARE,CAB,CAA,EH,YY,Y,OW,R6,100.00\n\
             FARE,CAB,CAA,EH,YY,Y,OW,R7,100.89\nFARE,CAB,CAA,EH,YY,Y,OW,R8,100.57\n\
             FARE,CAB,CAA,EH,YY,Y,OW,R9,100.34\nFARE,CAB,CAA,EH,YY,Y,OW,R10,100.92\n\
             FARE,CAB,CAA,EH,YY,Y,OW,R11,100.29\nFARE,CAB,CAA,EH,YY,Y,OW,R12,100.75\n\
             FARE,CAB,CAA,EH,YY,Y,OW,R13,100.13\nFARE,CAB,CAA,EH,YY,Y,OW,R14,100.40\nEND\n",
    itinerary: "{\"sale\":\"2025-03-01\",\"from\":\"CAA\",\"sectors\":[\
                {\"to\":\"CAB\",\"carrier\":\"Q1\",\"day\":\"2025-04-01\",\"cabin\":\"Y\"},\
                {\"to\":\"CAA\",\"carrier\":\"Q1\",\"day\":\"2025-04-02\",\"cabin\":\"Y\"},\
                {\"to\":\"CAB\",\"carrier\":\"Q1\",\"day\":\"2025-04-03\",\"cabin\":\"Y\"},\
                {\"to\":\"CAA\",\"carrier\":\"Q1\",\"day\":\"2025-04-04\",\"cabin\":\"Y\"},\
                {\"to\":\"CAB\",\"carrier\":\"Q1\",\"day\":\"2025-04-05\",\"cabin\":\"Y\"},\
                {\"to\":\"CAA\",\"carrier\":\"Q1\",\"day\":\"2025-04-06\",\"cabin\":\"Y\"},\
                {\"to\":\"CAB\",\"carrier\":\"Q1\",\"day\":\"2025-04-07\",\"cabin\":\"Y\"},\
                {\"to\":\"CAA\",\"carrier\":\"Q1\",\"day\":\"2025-04-08\",\"cabin\":\"Y\"},\
                {\"to\":\"CAB\",\"carrier\":\"Q1\",\"day\":\"2025-04-09\",\"cabin\":\"Y\"},\
                {\"to\":\"CAA\",\"carrier\":\"Q1\",\"day\":\"2025-04-10\",\"cabin\":\"Y\"},\
                {\"to\":\"CAB\",\"carrier\":\"Q1\",\"day\":\"2025-04-11\",\"cabin\":\"Y\"},\
                {\"to\":\"CAA\",\"carrier\":\"Q1\",\"day\":\"2025-04-12\",\"cabin\":\"Y\"},\
                {\"to\":\"CAB\",\"carrier\":\"Q1\",\"day\":\"2025-04-13\",\"cabin\":\"Y\"},\
                {\"to\":\"CAA\",\"carrier\":\"Q1\",\"day\":\"2025-04-14\",\"cabin\":\"Y\"},\
                {\"to\":\"CAB\",\"carrier\":\"Q1\",\"day\":\"2025-04-15\",\"cabin\":\"Y\"},\
                {\"to\":\"CAA\",\"carrier\":\"Q1\",\"day\":\"2025-04-16\",\"cabin\":\"Y\"}]}",
};

/// Twelve sectors, eleven such rules, and a dear fare of the free rule, which combines with none of these.
pub static A_DEAR_FARE_BESIDES: Input = Input {
    tariff: "HEAD,1,1,2025-01-01\nCUR,AA,XAA,1.000000,2,1,U\nCUR,AB,XAB,1.000000,2,1,U\nCITY,CAA,AA,2\n\
             CITY,CAB,AB,2\nRULE,R0,16,16,0,0,999,Y,*,R1 R2 R3 R4 R5 R6 R7 R8 R9 R10\n\
             RULE,R1,16,16,0,0,999,Y,*,R0 R2 R3 R4 R5 R6 R7 R8 R9 R10\n\
             RULE,R2,16,16,0,0,999,Y,*,R0 R1 R3 R4 R5 R6 R7 R8 R9 R10\n\
             RULE,R3,16,16,0,0,999,Y,*,R0 R1 R2 R4 R5 R6 R7 R8 R9 R10\n\
             RULE,R4,16,16,0,0,999,Y,*,R0 R1 R2 R3 R5 R6 R7 R8 R9 R10\n\
             RULE,R5,16,16,0,0,999,Y,*,R0 R1 R2 R3 R4 R6 R7 R8 R9 R10\n\
             RULE,R6,16,16,0,0,999,Y,*,R0 R1 R2 R3 R4 R5 R7 R8 R9 R10\n\
             RULE,R7,16,16,0,0,999,Y,*,R0 R1 R2 R3 R4 R5 R6 R8 R9 R10\n\
             RULE,R8,16,16,0,0,999,Y,*,R0 R1 R2 R3 R4 R5 R6 R7 R9 R10\n\
             RULE,R9,16,16,0,0,999,Y,*,R0 R1 R2 R3 R4 R5 R6 R7 R8 R10\n\
             RULE,R10,16,16,0,0,999,Y,*,R0 R1 R2 R3 R4 R5 R6 R7 R8 R9\nFARE,CAA,CAB,EH,YY,Y,OW,R0,100.17\n\
             FARE,CAA,CAB,EH,YY,Y,OW,R1,100.72\nFARE,CAA,CAB,EH,YY,Y,OW,R2,100.97\n\
             FARE,CAA,CAB,EH,YY,Y,OW,R3,100.08\nFARE,CAA,CAB,EH,YY,Y,OW,R4,100.32\n\
             FARE,CAA,CAB,EH,YY,Y,OW,R5,100.15\nFARE,CAA,CAB,EH,YY,Y,OW,R6,100.63\n\
             FARE,CAA,CAB,EH,YY,Y,OW,R7,100.97\nFARE,CAA,CAB,EH,YY,Y,OW,R8,100.57\n\
             FARE,CAA,CAB,EH,YY,Y,OW,R9,100.60\nFARE,CAA,CAB,EH,YY,Y,OW,R10,100.83\n\
             FARE,CAB,CAA,EH,YY,Y,OW,R0,100.48\nFARE,CAB,CAA,EH,YY,Y,OW,R1,100.26\n\
             FARE,CAB,CAA,EH,YY,Y,OW,R2,100.12\nFARE,CAB,CAA,EH,YY,Y,OW,R3,100.62\n\
             FARE,CAB,CAA,EH,YY,Y,OW,R4,100.03\nFARE,CAB,CAA,EH,YY,Y,OW,R5,100.49\n\
             FARE,CAB,CAA,EH,YY,Y,OW,R6,100.55\nFARE,CAB,CAA,EH,YY,Y,OW,R7,100.77\n\
             FARE,CAB,CAA,EH,YY,Y,OW,R8,100.97\nFARE,CAB,CAA,EH,YY,Y,OW,R9,100.98\n\
             FARE,CAB,CAA,EH,YY,Y,OW,R10,100.00\nFARE,CAA,CAB,EH,YY,Y,OW,,500.00\n\
             FARE,CAB,CAA,EH,YY,Y,OW,,500.00\nEND\n",
    itinerary: "{\"sale\":\"2025-03-01\",\"from\":\"CAA\",\"sectors\":[\
                {\"to\":\"CAB\",\"carrier\":\"Q1\",\"day\":\"2025-04-01\",\"cabin\":\"Y\"},\
                {\"to\":\"CAA\",\"carrier\":\"Q1\",\"day\":\"2025-04-02\",\"cabin\":\"Y\"},\
                {\"to\":\"CAB\",\"carrier\":\"Q1\",\"day\":\"2025-04-03\",\"cabin\":\"Y\"},\
                {\"to\":\"CAA\",\"carrier\":\"Q1\",\"day\":\"2025-04-04\",\"cabin\":\"Y\"},\
                {\"to\":\"CAB\",\"carrier\":\"Q1\",\"day\":\"2025-04-05\",\"cabin\":\"Y\"},\
                {\"to\":\"CAA\",\"carrier\":\"Q1\",\"day\":\"2025-04-06\",\"cabin\":\"Y\"},\
                {\"to\":\"CAB\",\"carrier\":\"Q1\",\"day\":\"2025-04-07\",\"cabin\":\"Y\"},\
                {\"to\":\"CAA\",\"carrier\":\"Q1\",\"day\":\"2025-04-08\",\"cabin\":\"Y\"},\
                {\"to\":\"CAB\",\"carrier\":\"Q1\",\"day\":\"2025-04-09\",\"cabin\":\"Y\"},\
                {\"to\":\"CAA\",\"carrier\":\"Q1\",\"day\":\"2025-04-10\",\"cabin\":\"Y\"},\
                {\"to\":\"CAB\",\"carrier\":\"Q1\",\"day\":\"2025-04-11\",\"cabin\":\"Y\"},\
                {\"to\":\"CAA\",\"carrier\":\"Q1\",\"day\":\"2025-04-12\",\"cabin\":\"Y\"}]}",
};
